//! What the definition of the gestures says. The contracts are the law.
ghost use Rattle.std.specs.Prelude.{◌≡◌, ◌+◌, ◌*◌, ℕ, [], length, map};
ghost use Rattle.cl_gesture.specs.Lines.{held_from, line, pieces};
ghost use Rattle.cl_gen.specs.Workload.{gesture_lines, gestures_text};

/// A reader of the gestures reads their lines, each whole: two for each item and two more. The last one is ended.
pub fn gestures_are_two_for_each_item_and_two()
    ensures lines { (n : ℕ) → pieces (gestures_text n) ≡ map line (gesture_lines n) }
    ensures count { (n : ℕ) → length (pieces (gestures_text n)) ≡ 2 * n + 2 }
    ensures ended { (n : ℕ) → held_from [] (gestures_text n) ≡ [] }
{}
