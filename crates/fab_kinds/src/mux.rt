//! The multiplexer tree.

ghost use Rattle.std.specs.Prelude.{◌≡◌, length};
ghost use Rattle.fab_kinds.specs.Mux.{chosen, mux_outputs};

/// A multiplexer of two inputs.
fn choose(first: bool, second: bool, select: bool) -> bool
    ensures { result ≡ chosen first second select }
{
    if select { second } else { first }
}

/// M_AB, M_AD, M_AH and M_EF.
pub fn outputs(pins: &[bool], config: &[bool]) -> [bool; 4]
    requires pins { length pins.now ≡ 12 }
    requires config { length config.now ≡ 2 }
    ensures { result ≡ mux_outputs pins.now config.now }
{
    let (c0, c1) = (config[0], config[1]);
    let (s0, s1, s2, s3) = (pins[8], pins[9], pins[10], pins[11]);
    let select_cd = choose(s1, s0, c0);
    let select_ef = choose(s2, s0, c1);
    let select_eh = choose(s3, s1, c1);
    let select_gh = choose(select_eh, select_ef, c0);
    let ab = choose(pins[0], pins[1], s0);
    let cd = choose(pins[2], pins[3], select_cd);
    let ef = choose(pins[4], pins[5], select_ef);
    let gh = choose(pins[6], pins[7], select_gh);
    let ad = choose(ab, cd, s1);
    let eh = choose(ef, gh, select_eh);
    let ah = choose(ad, eh, s3);
    [
        ab,
        choose(cd, ad, c0),
        choose(choose(gh, eh, c0), ah, c1),
        ef,
    ]
}
