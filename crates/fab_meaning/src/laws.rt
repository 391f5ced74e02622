//! Laws of texts. Each function does nothing: its contract is the law, for the proofs of crates above.

ghost use Rattle.fab_meaning.specs.Loaded.{LoadedBlocksSettle, LoadedPointsStay};
ghost use Rattle.fab_meaning.specs.Loading.{LedPointsStay, LedRunsAgree, LoadingPointsStay, LoadingRunsAgree, LoadsAgree, UnionIsClosed, WithinGrows};
ghost use Rattle.fab_meaning.specs.Ranked.{BlocksSettleOnTexts, TextsSettleOnce};
ghost use Rattle.fab_meaning.specs.Sound.{EachPointHasOneDriver, PointsOfSoundTextsHaveOneDriver, SoundTextsDriveOnce};

/// In a text whose modules drive each name at most once, and their inputs not at all, each point has at most one driver.
pub fn each_point_has_one_driver()
    ensures { EachPointHasOneDriver }
{}

/// The modules of a sound text are such.
pub fn sound_texts_drive_once()
    ensures { SoundTextsDriveOnce }
{}

/// In a sound text each declared point has exactly one driver.
pub fn points_of_sound_texts_have_one_driver()
    ensures { PointsOfSoundTextsHaveOneDriver }
{}

/// Two closed sets of flip-flops are one closed set together, and lead to all that each of them leads to. So there is a greatest,
/// and the loading points are the points that it leads to.
pub fn union_is_closed()
    ensures closed { UnionIsClosed }
    ensures grows { WithinGrows }
{}

/// What the loading points hold at first and the stream decide what they hold after a run, and after loading words.
pub fn loading_runs_agree()
    ensures runs { LoadingRunsAgree }
    ensures words { LoadsAgree }
{}

/// So it is with any stream: what the points hold to which it leads is decided by what they held at first and the stream.
pub fn led_runs_agree()
    ensures { LedRunsAgree }
{}

/// Ticks of other clocks than `CLK` change no loading point, while the stream stays.
pub fn loading_points_stay()
    ensures { LoadingPointsStay }
{}

/// Nor do they change a point to which any other stream leads, while that stays.
pub fn led_points_stay()
    ensures { LedPointsStay }
{}

/// A ranked set of points with one driver each has exactly one settled assignment for every value of the other points.
pub fn settles_once_on_texts()
    ensures { TextsSettleOnce }
{}

/// As many blocks of activations as there are ranks settle a ranked set of points without latches, whatever else is activated in between, ticks
/// of other clocks and changes of other inputs included, and it stays settled whatever follows.
pub fn blocks_settle_on_texts()
    ensures { BlocksSettleOnTexts }
{}

/// Activations in any order, ticks of other clocks than `CLK` and changes of inputs that carry no words move no loading point of a loaded text.
pub fn loaded_points_stay()
    ensures { LoadedPointsStay }
{}

/// So blocks settle a ranked set of a loaded text, whatever else happens, as long as those of its given points that are no loading points stay.
pub fn loaded_blocks_settle()
    ensures { LoadedBlocksSettle }
{}
