//! What follows from the definitions alone.

ghost use Rattle.std.specs.Prelude.{◌≡◌, ◌≢◌, List, Bool, false, AllPairs, slice_index_or};
ghost use Rattle.fab_kinds.specs.declared.kind.Kind.{Kind};
ghost use Rattle.fab_kinds.specs.Pins.{pin_names};
ghost use Rattle.fab_kinds.specs.Mux.{mux_outputs, mux_pins, mux_table};

/// No two pins of a kind have one name.
pub fn pin_names_differ()
    ensures { (kind : Kind) → AllPairs (λ first second. first ≢ second) (pin_names kind) }
{}

/// The tree of multiplexers shows what the table of its settings says.
pub fn mux_has_its_table()
    ensures { (pins config : List Bool) →
        mux_outputs pins config
        ≡ mux_table (slice_index_or config 1 false) (slice_index_or config 0 false) (mux_pins pins) }
{}
