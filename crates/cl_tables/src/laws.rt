//! What the definitions mean. The contracts are the laws.
ghost use Rattle.std.specs.Prelude.{◌≡◌, ◌↔◌, ◌==◌, ◌∷◌, ℕ, Bool, List, is_some, true};
ghost use Rattle.std.specs.Cmp.Lexicographic.{pointwise};
ghost use Rattle.std.specs.List.{flat_map};
ghost use Rattle.std.specs.Map.{lookup};
ghost use Rattle.cl_table.specs.Names.{IsTable, named};
ghost use Rattle.cl_tables.specs.Accessible.{CommandPlaces, accessible_commands};
ghost use Rattle.cl_tables.specs.Enabled.{States, is_enabled, with_switches};
ghost use Rattle.cl_tables.specs.Inheritance.{TableDecls, inheritance, is_among, parents_of, preorder};
ghost use Rattle.cl_tables.specs.Laws.{IsCommandOf, IsInherited, last_switch, stands_among};
ghost use Rattle.cl_tables.specs.Lookups.{is_accessible, line_command};
ghost use Rattle.cl_tables.specs.Rings.{HasNoRing};
ghost use Rattle.cl_tables.specs.declared.declarations.CommandPlace.{CommandPlace};

/// Where no table is on a ring, the preorder of a table is the table, and then the preorders of its parents.
#[tactic(auto, using(crate::proofs::RingLemmas::preorder_is))]
pub fn preorder_follows_parents()
    ensures { (tables : TableDecls) → HasNoRing tables → (x : List ℕ)
        → preorder tables x ≡ x ∷ flat_map (preorder tables) (parents_of tables x) }
{}

/// Where no table is on a ring, the inheritance order of a table has that table and those that it reaches, and no others.
pub fn inherited_tables_are_reached()
    ensures { (tables : TableDecls) → HasNoRing tables → (x y : List ℕ)
        → (is_among y (inheritance tables x) ≡ true) ↔ IsInherited tables x y }
{}

/// A command is accessible exactly where it is declared in a table of the inheritance order.
#[tactic(auto, using(crate::proofs::LawLemmas::accessible_is))]
pub fn accessible_commands_stand_in_inherited_tables()
    ensures { (tables : TableDecls) (places : CommandPlaces) (root x : List ℕ) → IsTable (λ c. c.name) places
        → is_accessible x (accessible_commands tables places root) ≡ stands_among (inheritance tables root) (named x places) }
{}

/// The command of a line is one whose name begins the line, and no name that begins it is longer.
pub fn line_commands_are_longest()
    ensures { (line : List ℕ) (commands : List CommandPlace) → IsCommandOf line commands (line_command line commands) }
{}

/// Of the switches of a known command the last counts.
#[tactic(auto, using(crate::proofs::LawLemmas::last_counts))]
pub fn last_switches_count()
    ensures { (switches : List (List ℕ × Bool)) (states : States) (x : List ℕ) → is_some (lookup (pointwise ◌==◌ x) states) ≡ true
        → is_enabled x (with_switches switches states) ≡ last_switch x switches (is_enabled x states) }
{}
