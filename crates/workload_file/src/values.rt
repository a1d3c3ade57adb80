//! The values of options, and what a deed says of its statement.
ghost use Rattle.std.specs.Prelude.{◌≡◌, IfOk};
ghost use Rattle.workload_file.specs.Deeds.{deed_spelled, setting_values};

use crate::table::{Word, statements};
use crate::workload::Deed;
use mtapi_values::{Args, Kind, Mask, NodeAttr, Timeout};
use std::alloc::{AllocError, Global};

/// What an option gives: a value, or that its text is none of its option's, that it has to be there and isn't, or that its name
/// isn't bound to such a thing. A place is that of the statement that bound the name, where one is given.
#[rattlefmt::skip]
#[derive(Drop)]
pub enum OptionValue {
    Number(u32), Whole(i64), Args(Args), Cores(Mask), Kind(Kind), Flag(bool), Mode(bool), Timeout(Timeout), Place(Option<u32>),
    Bad, Missing, Unbound,
}

// A word, a place, and the values of the options.
fn spelled<const N: usize>(
    alloc: Global,
    word: Word,
    place: Option<u32>,
    values: [OptionValue; N],
) -> Result<(Word, Option<u32>, Vec<OptionValue>), AllocError>
    ensures word { IfOk result (λ s. s.0 ≡ word) }
    ensures place { IfOk result (λ s. s.1 ≡ place) }
    ensures values { IfOk result (λ s. s.2.items ≡ values.entry) }
{
    match Vec::from_array(alloc, values) {
        Ok(list) => Ok((word, place, list)),
        Err(_) => Err(AllocError),
    }
}

macro_rules! place {
    () => { None };
    ($place:ident) => { Some(*$place) };
}

macro_rules! wrapped {
    (Named Refused $field:ident) => { OptionValue::Place(Some(*$field)) };
    (Named Usual $field:ident) => { OptionValue::Place(*$field) };
    (Args $absent:ident $field:ident) => { OptionValue::Args($field.again()) };
    ($shape:ident $absent:ident $field:ident) => { OptionValue::$shape(*$field) };
}

macro_rules! spell {
    (($alloc:ident $deed:ident) heads $heads:tt $($family:ident { $($word:ident $text:literal $naming:ident$(($sort:ident))? [$($place:ident)?] { $($field:ident: $key:ident $shape:ident$(($($bound:tt)*))? $absent:ident$(($usual:literal))?),* })* })*) => {
        match $deed {
            $($(Deed::$word { $($place,)? $($field),* } => spelled($alloc, Word::$word, place!($($place)?), [$(wrapped!($shape $absent $field)),*]),)*)*
        }
    };
}

/// A deed in the text: its word, the place of the statement that bound the name that it uses, and the values of its
/// options in the order of the table.
#[tactic(auto, unfolding(crate::specs::Deeds::deed_spelled))]
pub fn deed_spelled(
    alloc: Global,
    deed: &Deed,
) -> Result<(Word, Option<u32>, Vec<OptionValue>), AllocError>
    ensures { IfOk result (λ s. deed_spelled deed.now ≡ record { word = s.0; place = s.1; values = s.2.items }) }
{
    statements!(spell (alloc deed))
}

/// The settings of a node, in the order of the table.
pub fn setting_values(alloc: Global, settings: &NodeAttr) -> Result<Vec<OptionValue>, AllocError>
    ensures { IfOk result (λ list. list.items ≡ setting_values settings.now) }
{
    Ok(vec![in alloc;
        OptionValue::Number(settings.workers()),
        OptionValue::Number(settings.tasks()),
        OptionValue::Number(settings.actions()),
        OptionValue::Number(settings.groups()),
        OptionValue::Number(settings.queues()),
        OptionValue::Number(settings.objects()),
        OptionValue::Number(settings.priorities()),
        OptionValue::Number(settings.generations()),
    ]?)
}
