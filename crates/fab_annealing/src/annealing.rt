//! Simulated annealing: random exchanges, of which those that raise the cost are taken the more seldom the colder it is.
ghost use Rattle.std.specs.Prelude.{◌≡◌, ◌<◌, ◌≤◌, OnOk, IfSome, length, true};
ghost use Rattle.fab_annealing.specs.Boards.{IsBoard, Keeps, site_count, is_second};
ghost use Rattle.fab_annealing.specs.inner.Standing.{IsKept, HasLots};
ghost use Rattle.fab_annealing.specs.inner.Tied.{HasTies};

use crate::board::Board;
use crate::lots::Lots;
use crate::placement::Placement;
use crate::telling::tell_step;
use crate::ties::Ties;
use fab_progress::Progress;
use rand_core::SeedableRng;
use rand_core::utils::NextWord;
use rand_pcg::Lcg64Xsh32;
use std::alloc::AllocError;

/// The temperature of each step in 1/65,536, and how wide the window of its moves is between one tile and a quarter of the
/// board, in 1/256.
const STEPS: [(u32, u32); 40] = [
    (196608, 256),
    (182373, 238),
    (169168, 221),
    (156920, 206),
    (145558, 191),
    (135019, 177),
    (125243, 163),
    (116175, 151),
    (107764, 139),
    (99961, 128),
    (92724, 118),
    (86010, 108),
    (79783, 99),
    (74006, 90),
    (68648, 82),
    (63677, 74),
    (59067, 67),
    (54790, 60),
    (50823, 54),
    (47143, 48),
    (43730, 42),
    (40564, 36),
    (37627, 31),
    (34903, 27),
    (32375, 22),
    (30031, 18),
    (27857, 14),
    (25840, 10),
    (23969, 6),
    (22234, 3),
    (20624, 0),
    (19131, 0),
    (17745, 0),
    (16461, 0),
    (15269, 0),
    (14163, 0),
    (13138, 0),
    (12187, 0),
    (11304, 0),
    (10486, 0),
];

/// How many steps there are.
const STEP_COUNT: u32 = 40;

/// How many exchanges all steps together try for each item that there is. The items are drawn.
const TRIES: u32 = 2000;

/// By how much each item makes the first step hotter, in 1/65,536, and how hot it is at least. A board of few items has its order
/// while it is warm, so hot steps would be lost on it; all steps are for boards of more than a thousand items.
const HEAT: u32 = 170;

const LEAST_HEAT: u32 = 40000;

/// How often a tile is drawn for an exchange.
const DRAWS: u32 = 8;

/// What a step of the annealing goes by.
#[derive(Clone, Copy)]
struct Step {
    temperature: u32,
    /// How many exchanges it tries for each item.
    tries: u32,
    /// How far an item may go in each direction.
    window: u32,
    /// The greatest column and the greatest row.
    last_column: u32,
    last_row: u32,
    ghost bounded: { tries ≤ 2000 },
    ghost narrow: { window ≤ 8 },
    ghost few_columns: { last_column ≤ 31 },
    ghost few_rows: { last_row ≤ 31 },
}

/// A random number below a bound.
fn below(random: &mut Lcg64Xsh32, bound: u32) -> u32
    requires { 0 < bound }
    ensures { result < bound }
{
    random.next_word() % bound
}

/// By how much a try may raise the cost: the temperature times minus the binary logarithm of a random number below 1, whose
/// bits are given.
fn allowed(temperature: u32, bits: u32) -> u64
    ensures { result < 4294967296 }
{
    let zeros = bits.leading_zeros().saturating_add(1);
    let rest = bits.checked_shl(zeros).unwrap_or(0) / 65536;
    let logarithm = zeros.saturating_mul(65536).saturating_sub(rest);
    u64::from(temperature).saturating_mul(u64::from(logarithm)) / 4294967296
}

/// A random place not far from another, and not beyond the last.
fn draw_near(random: &mut Lcg64Xsh32, place: u32, window: u32, last: u32) -> u32
    requires place { place ≤ 31 }
    requires last { last ≤ 31 }
    ensures { result ≤ 31 }
{
    let low = place.saturating_sub(window);
    let high = place.saturating_add(window).min(last).max(low);
    low + below(random, high - low + 1)
}

/// A random site in another tile not far from that of a site, and of the same kind; none where the tile that is drawn has none, or
/// is that of the site: an exchange within a tile changes nothing.
fn draw_in_tile(
    board: &Board,
    lots: &Lots,
    random: &mut Lcg64Xsh32,
    from: u32,
    step: Step,
) -> Option<u32>
    requires board { IsBoard board.now }
    requires lots { HasLots board.now lots.now }
    requires from { from < site_count board.now }
    ensures inside { IfSome result (λ site. site < site_count board.now) }
    ensures kind { IfSome result (λ site. is_second board.now site ≡ is_second board.now from) }
{
    let second = board.is_second(from);
    let (x, y) = (board.column(from), board.row(from));
    let column = draw_near(random, x, step.window, step.last_column);
    let row = draw_near(random, y, step.window, step.last_row);
    if column == x && row == y {
        return None;
    }
    let lot = lots.at(second, column, row);
    let count = lot.len();
    if count == 0 {
        return None;
    }
    let place = random.next_word() as usize % count;
    Some(lot[place])
}

/// A random site of the kind of a site, in another tile not far from it. Sites of the second kind stand in few tiles, so a tile without
/// one is drawn again.
fn draw_site(
    board: &Board,
    lots: &Lots,
    random: &mut Lcg64Xsh32,
    from: u32,
    step: Step,
) -> Option<u32>
    requires board { IsBoard board.now }
    requires lots { HasLots board.now lots.now }
    requires from { from < site_count board.now }
    ensures inside { IfSome result (λ site. site < site_count board.now) }
    ensures kind { IfSome result (λ site. is_second board.now site ≡ is_second board.now from) }
{
    for _draw in 0..DRAWS {
        if let Some(site) = draw_in_tile(board, lots, random, from, step) {
            return Some(site);
        }
    }
    None
}

/// Tries one random exchange. Most would raise the cost by too much, and for most of those the spans of the nets tell so at once.
#[tactic(auto, using(crate::proofs::Falling::keeps_refl))]
fn try_random(
    placement: &mut Placement,
    board: &Board,
    lots: &Lots,
    ties: &Ties,
    random: &mut Lcg64Xsh32,
    step: Step,
) -> Result<(), AllocError>
    requires board { IsBoard board.now }
    requires kept { IsKept board.now placement.old }
    requires lots { HasLots board.now lots.now }
    requires ties { HasTies board.now.nets ties.now }
    requires some { 0 < length board.now.locked.items }
    ensures kept { OnOk result (IsKept board.now placement.new) }
    ensures keeps { OnOk result (Keeps board.now placement.old.sites.items placement.new.sites.items) }
{
    let item = below(random, board.locked.len() as u32);
    if board.locked[item as usize] {
        return Ok(());
    }
    let from = placement.site_of(item);
    let Some(site) = draw_site(board, lots, random, from, step) else {
        return Ok(());
    };
    if !placement.is_loose(board, item, site) {
        return Ok(());
    }
    let room = allowed(step.temperature, random.next_word());
    if !placement.may_rise_within(board, ties, item, site, room) {
        return Ok(());
    }
    let most = placement.cost() + room;
    let _taken = placement.exchange_below(board, item, site, most)?;
    Ok(())
}

/// Makes the tries of one step.
fn anneal_at(
    placement: &mut Placement,
    board: &Board,
    lots: &Lots,
    ties: &Ties,
    random: &mut Lcg64Xsh32,
    step: Step,
) -> Result<(), AllocError>
    requires board { IsBoard board.now }
    requires kept { IsKept board.now placement.old }
    requires lots { HasLots board.now lots.now }
    requires ties { HasTies board.now.nets ties.now }
    requires some { 0 < length board.now.locked.items }
    ensures kept { OnOk result (IsKept board.now placement.new) }
    ensures keeps { OnOk result (Keeps board.now placement.old.sites.items placement.new.sites.items) }
{
    for _try in 0..step.tries * board.locked.len() as u32 {
        try_random(placement, board, lots, ties, random, step)?;
    }
    Ok(())
}

/// How hot the first step of a board of so many items may be.
fn hottest(items: usize) -> u32 {
    let items = u32::try_from(items).unwrap_or(u32::MAX);
    HEAT.saturating_mul(items).max(LEAST_HEAT)
}

/// How many tries each step makes for an item, where steps above a temperature are left out.
fn tries_below(hottest: u32) -> u32
    ensures { result ≤ 2000 }
{
    let steps = STEPS.iter().filter(|step| step.0 <= hottest).count();
    TRIES / (steps as u32).max(1)
}

/// Goes through the steps that a board of so many items needs, with random numbers from a seed.
pub fn anneal<P: Progress>(
    progress: &mut P,
    placement: &mut Placement,
    board: &Board,
    lots: &Lots,
    ties: &Ties,
    seed: u64,
) -> Result<(), AllocError>
    requires board { IsBoard board.now }
    requires kept { IsKept board.now placement.old }
    requires lots { HasLots board.now lots.now }
    requires ties { HasTies board.now.nets ties.now }
    ensures kept { OnOk result (IsKept board.now placement.new) }
    ensures keeps { OnOk result (Keeps board.now placement.old.sites.items placement.new.sites.items) }
{
    if board.locked.is_empty() {
        return Ok(());
    }
    let last_column = last_of(&board.columns);
    let last_row = last_of(&board.rows);
    let widest = last_column.max(last_row) / 4;
    let hottest = hottest(board.locked.len());
    let tries = tries_below(hottest);
    let mut random = Lcg64Xsh32::seed_from_u64(seed);
    let mut done: u32 = 0;
    for (temperature, share) in STEPS {
        done = done.saturating_add(1);
        if hottest < temperature {
            continue;
        }
        let step = Step {
            temperature,
            tries,
            window: 1 + (widest.saturating_mul(share) / 256).min(7),
            last_column,
            last_row,
        };
        anneal_at(placement, board, lots, ties, &mut random, step)?;
        tell_step(progress, placement, done, STEP_COUNT);
    }
    Ok(())
}

/// The greatest of some places.
fn last_of(places: &[u32]) -> u32
    ensures { result ≤ 31 }
{
    places.iter().copied().max().unwrap_or(0).min(31)
}
