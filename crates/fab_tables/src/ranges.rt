//! The ranges of a configuration table: which configuration bits a row lists.

ghost use Rattle.std.specs.Prelude.{◌≡◌, ◌≤◌, ◌<◌, ◌+◌, ◌-◌, ◌*◌, ◌^◌, ◌++◌, ◌&&◌, IfOk, OnOk, length, map, min, nat_lt, option_map, take, true};
ghost use Rattle.std.specs.List.{flat_map, list_all};
ghost use Rattle.fab_lines.specs.Numbers.{capped, is_digit, is_number, number_of};
ghost use Rattle.fab_model.specs.Tiles.{counted};
ghost use Rattle.fab_tables.specs.inner.FollowingConfig.{bits_below};
ghost use Rattle.fab_tables.specs.Config.{first_end, is_item, item_bits, items, last_end, lists_nothing, run};

use crate::cell::{after, before, has, pieces};
use fab_lines::capped_number;
use std::alloc::{AllocError, Global};

/// Counts of listed bits stop here: no frame takes so many.
const MOST_LISTED: u64 = 33;

fn lists_nothing(ranges: &[u8]) -> bool
    ensures { result ≡ lists_nothing ranges.now }
{
    ranges.is_empty() || ranges.eq_ignore_ascii_case(b"NULL")
}

/// The items between semicolons; none where the cell is empty or `NULL`.
pub fn items(alloc: Global, ranges: &[u8]) -> Result<Vec<&[u8]>, AllocError>
    ensures { IfOk result (λ found. map (λ item. item.now) found.items ≡ items ranges.now) }
{
    if lists_nothing(ranges) {
        Ok(Vec::new(alloc))
    } else {
        pieces(alloc, ranges, b';')
    }
}

fn first_end(item: &[u8]) -> &[u8]
    ensures { result.now ≡ first_end item.now }
{
    before(item, b':')
}

fn last_end(item: &[u8]) -> &[u8]
    ensures { result.now ≡ last_end item.now }
{
    if has(item, b':') {
        after(item, b':')
    } else {
        item
    }
}

fn is_number(word: &[u8]) -> bool
    ensures { result ≡ is_number word.now }
{
    capped_number(word).is_some()
}

fn is_item(item: &[u8]) -> bool
    ensures { result ≡ is_item item.now }
{
    is_number(first_end(item)) && is_number(last_end(item))
}

/// Whether each item is a number, or two with a colon between them.
pub fn are_items(items: &[&[u8]]) -> bool
    ensures { result ≡ list_all (λ item. is_item item.now) items.now }
{
    items.iter().all(|item| is_item(item))
}

/// The digit at one of so many places, where a shorter word has zeros in front.
fn digit_at(word: &[u8], places: usize, place: usize) -> u64
    requires digits { list_all is_digit word.now ≡ true }
    requires fits { length word.now ≤ places }
    requires within { place < places }
    ensures digit { result ≤ 9 }
    ensures next { number_of (take (place + 1 - (places - length word.now)) word.now)
        ≡ number_of (take (place - (places - length word.now)) word.now) * 10 + result }
{
    let zeros = places - word.len();
    if place < zeros {
        return 0;
    }
    u64::from(word[place - zeros] - b'0')
}

/// One more than the number by which the first number is above the second, 0 where it is below, and never more than the bound.
fn lead(first: &[u8], second: &[u8]) -> u64
    requires first { list_all is_digit first.now ≡ true }
    requires second { list_all is_digit second.now ≡ true }
    ensures { result ≡ min (number_of first.now + 1 - number_of second.now) MOST_LISTED }
{
    let places = first.len().max(second.len());
    let mut lead = 1;
    for place in 0..places {
        let above = digit_at(first, places, place);
        let below = digit_at(second, places, place);
        if 0 < lead {
            lead = ((lead - 1) * 10 + above + 1)
                .saturating_sub(below)
                .min(MOST_LISTED);
        }
    }
    lead
}

/// How many bits an item lists, up to the bound.
fn item_count(item: &[u8]) -> u64
    requires { is_item item.now ≡ true }
    ensures { result ≡ min (length (item_bits item.now)) MOST_LISTED }
{
    let first = first_end(item);
    let last = last_end(item);
    lead(first, last).max(lead(last, first))
}

/// How many bits the items list, up to 33.
pub fn listed_count(items: &[&[u8]]) -> u64
    requires { list_all (λ item. is_item item.now) items.now ≡ true }
    ensures { result ≡ min (length (flat_map item_bits (map (λ item. item.now) items.now))) MOST_LISTED }
{
    let mut count = 0;
    for item in items {
        count = (count + item_count(item)).min(MOST_LISTED);
    }
    count
}

/// Whether a number is below a bound.
fn is_below(word: &[u8], bound: u32) -> bool
    requires { is_number word.now ≡ true }
    ensures { result ≡ nat_lt (number_of word.now) bound }
{
    match capped_number(word) {
        Some(number) => number < u64::from(bound),
        None => false,
    }
}

fn is_inside(item: &[u8], bound: u32) -> bool
    requires { is_item item.now ≡ true }
    ensures { result ≡ (nat_lt (number_of (first_end item.now)) bound && nat_lt (number_of (last_end item.now)) bound) }
{
    is_below(first_end(item), bound) && is_below(last_end(item), bound)
}

fn number(word: &[u8]) -> u32
    requires number { is_number word.now ≡ true }
    requires fits { number_of word.now < 2 ^ 32 }
    ensures { result ≡ number_of word.now }
{
    match capped_number(word) {
        Some(number) => number as u32,
        None => 0,
    }
}

fn push_up(bits: &mut Vec<u32>, first: u32, last: u32) -> Result<(), AllocError>
    requires { first ≤ last }
    ensures { OnOk result (bits.new.items ≡ bits.old.items ++ counted (last + 1 - first) (λ step. first + step)) }
{
    for step in 0..u64::from(last - first) + 1 {
        bits.push(first + step as u32)?;
    }
    Ok(())
}

fn push_down(bits: &mut Vec<u32>, first: u32, last: u32) -> Result<(), AllocError>
    requires { last ≤ first }
    ensures { OnOk result (bits.new.items ≡ bits.old.items ++ counted (first + 1 - last) (λ step. first - step)) }
{
    for step in 0..u64::from(first - last) + 1 {
        bits.push(first - step as u32)?;
    }
    Ok(())
}

/// Adds the numbers from one to another, in either direction.
fn push_run(bits: &mut Vec<u32>, first: u32, last: u32) -> Result<(), AllocError>
    ensures { OnOk result (bits.new.items ≡ bits.old.items ++ run first last) }
{
    if first <= last {
        push_up(bits, first, last)
    } else {
        push_down(bits, first, last)
    }
}

/// The bits that the items list, in order; none where one of them is not below the bound.
pub fn listed_bits(
    alloc: Global,
    items: &[&[u8]],
    bound: u32,
) -> Result<Option<Vec<u32>>, AllocError>
    requires { list_all (λ item. is_item item.now) items.now ≡ true }
    ensures { IfOk result (λ found. option_map (λ bits. bits.items) found
        ≡ bits_below bound (flat_map item_bits (map (λ item. item.now) items.now))) }
{
    let mut bits = Vec::new(alloc);
    for item in items {
        if !is_inside(item, bound) {
            return Ok(None);
        }
        push_run(&mut bits, number(first_end(item)), number(last_end(item)))?;
    }
    Ok(Some(bits))
}
