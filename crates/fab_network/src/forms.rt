//! How points that stand for themselves are found in a run, in which many of them have tables.

ghost use Rattle.std.specs.Prelude.{◌≡◌, ◌<◌, ◌≤◌, ◌^◌, ◌++◌, [], ◌∷◌, ℕ, Some, length, slice_get, if◌then◌else◌};
ghost use Rattle.fab_ternary.specs.Terns.{plain_tern};
ghost use Rattle.fab_compiled.specs.Terns.{seen, IsView};
ghost use Rattle.fab_network.specs.Forms.{AreForms, HasForm, IsForm, IsFormBy};
ghost use Rattle.fab_network.specs.Network.{shown_tern, AreFit, IsFitDrive, IsFitSource};
ghost use Rattle.fab_network.specs.Passes.{kept_tern, EachListed};
ghost use Rattle.fab_network.specs.Sharing.{AreShared};

use crate::network::{Clock, Drive, Network, Source, shown};
use crate::sharing::KeptValues;
use crate::tables::{Table, table_of};
use fab_compiled::{Tree, View};
use fab_ternary::Tern;

/// The most forms that are kept, each of a hundred bytes. Designs have fewer points that stand for themselves; where a text has more, the rest are
/// found by their drives.
const MOST_FORMS: usize = 1 << 18;

/// How a point that stands for itself is found in a run.
#[derive(Clone, Copy)]
pub enum Form {
    /// It shows a bit of an expression, by a table.
    Shows(Table),
    /// A flip-flop of `UserCLK`, which takes a bit of an expression, by a table.
    Takes(Table),
    /// By its drive.
    Driven,
}

/// The forms of points, in their order. They are right as long as the points that vary are these: those that have been asked for and are open now.
/// Where memory is refused, or they are too many, the rest of the points has none. All points have again what they had before.
pub fn forms_of(
    network: &Network,
    order: &[u32],
    leads: &[u32],
    marks: &[bool],
    terns: &mut [Tern],
    forms: &mut Vec<Form>,
)
    requires fit { AreFit network.now.trees.items network.now.drives.items }
    requires points { length network.now.drives.items ≡ length leads.now }
    requires view { IsView terns.old leads.now }
    requires terns { length terns.old ≡ length leads.now }
    requires marks { length marks.now ≡ length leads.now }
    requires small { length leads.now ≤ 2 ^ 32 }
    requires within { EachListed (length order.now) order.now (λ point. point < length leads.now) }
    ensures same { (point : ℕ) → kept_tern terns.new point ≡ kept_tern terns.old point }
    ensures forms { AreForms network.now.trees.items network.now.drives.items leads.now marks.now terns.old order.now forms.new.items }
{
    forms.clear();
    for point in order {
        if forms.len() >= MOST_FORMS {
            return;
        }
        let form = form_of(network, *point as usize, leads, marks, terns);
        if !add(forms, form) {
            return;
        }
    }
}

// One more form, if there is memory.
fn add(forms: &mut Vec<Form>, form: Form) -> bool
    ensures { forms.new.items ≡ (if result then forms.old.items ++ form ∷ [] else forms.old.items) }
{
    forms.push(form).is_ok()
}

// The form of a point.
fn form_of(
    network: &Network,
    point: usize,
    leads: &[u32],
    marks: &[bool],
    terns: &mut [Tern],
) -> Form
    requires fit { AreFit network.now.trees.items network.now.drives.items }
    requires points { length network.now.drives.items ≡ length leads.now }
    requires view { IsView terns.old leads.now }
    requires terns { length terns.old ≡ length leads.now }
    requires marks { length marks.now ≡ length leads.now }
    requires small { length leads.now ≤ 2 ^ 32 }
    requires within { point < length leads.now }
    ensures same { (other : ℕ) → kept_tern terns.new other ≡ kept_tern terns.old other }
    ensures form { IsForm network.now.trees.items network.now.drives.items leads.now marks.now terns.old point result }
{
    form_by(&network.trees, network.drives[point], leads, marks, terns)
}

// The form of a point with this drive.
fn form_by(trees: &[Tree], drive: Drive, leads: &[u32], marks: &[bool], terns: &mut [Tern]) -> Form
    requires fit { IsFitDrive trees.now (length leads.now) drive }
    requires view { IsView terns.old leads.now }
    requires terns { length terns.old ≡ length leads.now }
    requires marks { length marks.now ≡ length leads.now }
    requires small { length leads.now ≤ 2 ^ 32 }
    ensures same { (point : ℕ) → kept_tern terns.new point ≡ kept_tern terns.old point }
    ensures form { IsFormBy trees.now leads.now marks.now terns.old drive result }
{
    match drive {
        Drive::Value(source) => match table_of(trees, source, leads, marks, terns) {
            Some(table) => Form::Shows(table),
            None => Form::Driven,
        },
        Drive::Flop(Clock::User, next) => match table_of(trees, next, leads, marks, terns) {
            Some(table) => Form::Takes(table),
            None => Form::Driven,
        },
        Drive::Flop(Clock::Loader | Clock::Other, _) => Form::Driven,
        Drive::Given | Drive::Same(_) | Drive::Hold(_, _) => Form::Driven,
    }
}

/// What a point shows by its form, where a latch holds this value.
pub fn shown_by_form(
    network: &Network,
    point: usize,
    held: Tern,
    form: &Form,
    shared: &mut KeptValues,
    view: &View,
) -> Tern
    requires fit { AreFit network.now.trees.items network.now.drives.items }
    requires points { length network.now.drives.items ≡ length view.now.leads.now }
    requires view { IsView view.now.terns.now view.now.leads.now }
    requires terns { length view.now.terns.now ≡ length view.now.leads.now }
    requires small { length view.now.leads.now ≤ 2 ^ 32 }
    requires within { point < length view.now.leads.now }
    requires form { HasForm network.now.trees.items network.now.drives.items view.now.leads.now view.now.terns.now point form.now }
    requires shared { AreShared network.now.trees.items (length view.now.leads.now) (seen view.now.terns.now view.now.leads.now) shared.old }
    ensures shared { AreShared network.now.trees.items (length view.now.leads.now) (seen view.now.terns.now view.now.leads.now) shared.new }
    ensures value { plain_tern result ≡ shown_tern network.now.trees.items network.now.drives.items (plain_tern held) (seen view.now.terns.now view.now.leads.now) point }
{
    match form {
        Form::Shows(table) => table.value(view.terns),
        Form::Takes(_) | Form::Driven => shown(network, point, held, shared, view),
    }
}
