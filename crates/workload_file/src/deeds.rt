//! What a statement without a fault does, of the values of its options.
ghost use Rattle.std.specs.Prelude.{◌≡◌};
ghost use Rattle.workload_file.specs.Deeds.{number_given, whole_in, args_in, cores_in, kind_in, flag_in, mode_in, timeout_in, place_in, place_there, deed_with, queue_deed, lock_deed, segment_deed};
ghost use Rattle.workload_file.specs.Changes.{usual_settings, with_node_setting, settings_by};

use crate::table::{Word, statements};
use crate::values::OptionValue;
use crate::workload::Deed;
use mtapi_values::{Args, Kind, Mask, NodeAttr, Timeout};

#[tactic(auto, unfolding(crate::specs::Deeds::number_given))]
fn number_in(value: &OptionValue) -> u32
    ensures { result ≡ number_given value.now }
{
    match value {
        OptionValue::Number(n) => *n,
        _ => 0,
    }
}

#[tactic(auto, unfolding(crate::specs::Deeds::whole_in))]
fn whole_in(value: &OptionValue) -> i64
    ensures { result ≡ whole_in value.now }
{
    match value {
        OptionValue::Whole(z) => *z,
        _ => 0,
    }
}

#[tactic(auto, unfolding(crate::specs::Deeds::args_in))]
fn args_in(value: &OptionValue) -> Args
    ensures { result ≡ args_in value.now }
{
    match value {
        OptionValue::Args(args) => args.again(),
        _ => Args::new(),
    }
}

#[tactic(auto, unfolding(crate::specs::Deeds::cores_in))]
fn cores_in(value: &OptionValue) -> Mask
    ensures { result ≡ cores_in value.now }
{
    match value {
        OptionValue::Cores(mask) => *mask,
        _ => Mask(u64::MAX),
    }
}

#[tactic(auto, unfolding(crate::specs::Deeds::kind_in))]
fn kind_in(value: &OptionValue) -> Kind
    ensures { result ≡ kind_in value.now }
{
    match value {
        OptionValue::Kind(kind) => *kind,
        _ => Kind::Add,
    }
}

#[tactic(auto, unfolding(crate::specs::Deeds::flag_in))]
fn flag_in(value: &OptionValue) -> bool
    ensures { result ≡ flag_in value.now }
{
    match value {
        OptionValue::Flag(flag) => *flag,
        _ => false,
    }
}

#[tactic(auto, unfolding(crate::specs::Deeds::mode_in))]
fn mode_in(value: &OptionValue) -> bool
    ensures { result ≡ mode_in value.now }
{
    match value {
        OptionValue::Mode(writer) => *writer,
        _ => false,
    }
}

#[tactic(auto, unfolding(crate::specs::Deeds::timeout_in))]
fn timeout_in(value: &OptionValue) -> Timeout
    ensures { result ≡ timeout_in value.now }
{
    match value {
        OptionValue::Timeout(timeout) => *timeout,
        _ => Timeout::NoWait,
    }
}

#[tactic(auto, unfolding(crate::specs::Deeds::place_in))]
fn place_in(value: &OptionValue) -> Option<u32>
    ensures { result ≡ place_in value.now }
{
    match value {
        OptionValue::Place(place) => *place,
        _ => None,
    }
}

#[tactic(auto, unfolding(crate::specs::Deeds::place_there))]
fn place_there(value: &OptionValue) -> u32
    ensures { result ≡ place_there value.now }
{
    match value {
        OptionValue::Place(Some(place)) => *place,
        _ => 0,
    }
}

macro_rules! held {
    (Number $absent:ident $value:ident) => { number_in($value) };
    (Whole $absent:ident $value:ident) => { whole_in($value) };
    (Args $absent:ident $value:ident) => { args_in($value) };
    (Cores $absent:ident $value:ident) => { cores_in($value) };
    (Kind $absent:ident $value:ident) => { kind_in($value) };
    (Flag $absent:ident $value:ident) => { flag_in($value) };
    (Mode $absent:ident $value:ident) => { mode_in($value) };
    (Timeout $absent:ident $value:ident) => { timeout_in($value) };
    (Named Refused $value:ident) => { place_there($value) };
    (Named Usual $value:ident) => { place_in($value) };
}

// Each arm returns, so that none has a deed of its own to move.
macro_rules! built {
    (($self:ident $at:ident $values:ident $else:expr) { $($word:ident $text:literal $naming:ident$(($sort:ident))? [$($place:ident)?] { $($field:ident: $key:ident $shape:ident$(($($bound:tt)*))? $absent:ident$(($usual:literal))?),* })* }) => {
        match $self {
            $(Word::$word => match $values {
                [$($field),*] => return Deed::$word { $($place: $at,)? $($field: held!($shape $absent $field)),* },
                _ => return $else,
            },)*
            _ => return $else,
        }
    };
}

/// The statements of one family alone.
macro_rules! family {
    ((tasks $args:tt) heads $a:tt tasks $rows:tt $($later:tt)*) => { built! { $args $rows } };
    ((queues $args:tt) heads $a:tt tasks $b:tt queues $rows:tt $($later:tt)*) => { built! { $args $rows } };
    ((locks $args:tt) heads $a:tt tasks $b:tt queues $c:tt locks $rows:tt $($later:tt)*) => { built! { $args $rows } };
    ((segments $args:tt) heads $a:tt tasks $b:tt queues $c:tt locks $d:tt segments $rows:tt) => { built! { $args $rows } };
}

#[tactic(auto, unfolding(crate::specs::Deeds::segment_deed))]
fn segment_deed(word: Word, place: u32, values: &[OptionValue]) -> Deed
    ensures { result ≡ segment_deed word place values.now }
{
    statements!(family (segments (word place values Deed::Begin)))
}

#[tactic(auto, unfolding(crate::specs::Deeds::lock_deed))]
fn lock_deed(word: Word, place: u32, values: &[OptionValue]) -> Deed
    ensures { result ≡ lock_deed word place values.now }
{
    statements!(family (locks (word place values segment_deed(word, place, values))))
}

#[tactic(auto, unfolding(crate::specs::Deeds::queue_deed))]
fn queue_deed(word: Word, place: u32, values: &[OptionValue]) -> Deed
    ensures { result ≡ queue_deed word place values.now }
{
    statements!(family (queues (word place values lock_deed(word, place, values))))
}

/// The deed of a statement, of the place of the name that it uses and the values of its options.
#[tactic(auto, unfolding(crate::specs::Deeds::deed_with))]
pub fn deed_with(word: Word, place: u32, values: &[OptionValue]) -> Deed
    ensures { result ≡ deed_with word place values.now }
{
    statements!(family (tasks (word place values queue_deed(word, place, values))))
}

#[tactic(auto, unfolding(crate::specs::Changes::with_node_setting))]
fn with_setting(settings: NodeAttr, number: u32, value: u32) -> NodeAttr
    ensures { result ≡ with_node_setting number value settings }
{
    let mut settings = settings;
    let _ = settings.set(number, u64::from(value));
    settings
}

/// The settings with these attributes set, by their numbers from 1 on.
#[rattlefmt::skip]
fn settings_of(a: u32, b: u32, c: u32, d: u32, e: u32, f: u32, g: u32, h: u32) -> NodeAttr
    ensures { result ≡ with_node_setting 8 h (with_node_setting 7 g (with_node_setting 6 f (with_node_setting 5 e (with_node_setting 4 d (with_node_setting 3 c (with_node_setting 2 b (with_node_setting 1 a usual_settings))))))) }
{
    let settings = with_setting(NodeAttr::new(), 1, a);
    let settings = with_setting(settings, 2, b);
    let settings = with_setting(settings, 3, c);
    let settings = with_setting(settings, 4, d);
    let settings = with_setting(settings, 5, e);
    let settings = with_setting(settings, 6, f);
    let settings = with_setting(settings, 7, g);
    with_setting(settings, 8, h)
}

/// The settings that the values of a `node` line give.
#[rattlefmt::skip]
#[tactic(auto, unfolding(crate::specs::Changes::settings_by))]
pub fn settings_with(values: &[OptionValue]) -> NodeAttr
    ensures { result ≡ settings_by values.now }
{
    match values {
        [a, b, c, d, e, f, g, h] => settings_of(number_in(a), number_in(b), number_in(c), number_in(d), number_in(e), number_in(f), number_in(g), number_in(h)),
        _ => NodeAttr::new(),
    }
}
