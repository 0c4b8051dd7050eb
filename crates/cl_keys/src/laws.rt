//! What the definitions of keys mean. The contracts are the laws.
ghost use Rattle.cl_keys.specs.Gestures.{OnePaneIsPointedAt};
ghost use Rattle.cl_keys.specs.Laws.{CutsAreFree, KeysAreSpelled, OtherSequencesDoNothing, SpellingsGiveAllKeys, SpellingsGiveKeys};

/// However bytes are cut into parts, they make the same keys, and leave a decoder in the same state.
pub fn cuts_are_free()
    ensures { CutsAreFree }
{}

/// What a terminal sends for a key makes this key alone, and leaves a decoder at rest.
pub fn spellings_give_keys()
    ensures { SpellingsGiveKeys }
{}

/// What a terminal sends for keys, one behind the other, makes these keys, and leaves a decoder at rest.
pub fn spellings_give_all_keys()
    ensures { SpellingsGiveAllKeys }
{}

/// A key is made only where what a terminal sends for it ends.
pub fn keys_are_spelled()
    ensures { KeysAreSpelled }
{}

/// A sequence that a terminal sends for no key makes no key, however long it is, and leaves a decoder at rest.
pub fn other_sequences_do_nothing()
    ensures { OtherSequencesDoNothing }
{}

/// Where the panes of an application lie apart, a press points at the one in which its cell lies, whatever their order.
pub fn one_pane_is_pointed_at()
    ensures { OnePaneIsPointedAt }
{}
