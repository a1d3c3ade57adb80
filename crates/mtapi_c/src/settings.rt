//! The settings that C asks for.

ghost use Rattle.std.specs.Prelude.{◌≡◌};
ghost use Rattle.mtapi_values.specs.AttributeTables.{node_attributes, is_within};
ghost use Rattle.mtapi_c.specs.Settings.{asked_settings, first_wrong, wrong_of};

use mtapi_values::NodeAttr;

/// The settings of a node, each with its range.
#[repr(C)]
#[derive(Drop)]
pub struct Settings {
    /// 1 to 16.
    pub workers: u32,
    /// 1 to 65,536.
    pub tasks: u32,
    /// 1 to 1,024.
    pub actions: u32,
    /// 1 to 1,024.
    pub groups: u32,
    /// 1 to 256.
    pub queues: u32,
    /// 1 to 256 of each kind of MRAPI.
    pub objects: u32,
    /// 1 to 8.
    pub priorities: u32,
    /// 1 to 4,294,967,295.
    pub generations: u32,
}

// The value is in this range, both ends included.
fn is_within(value: u32, least: u32, greatest: u32) -> bool
    ensures { result ≡ is_within least greatest value }
{
    least <= value && value <= greatest
}

// The number of the first setting that is out of its range, 0 where each is in it.
fn first_wrong(settings: &Settings) -> u32
    ensures { result ≡ first_wrong node_attributes (asked_settings settings.now) }
{
    if !is_within(settings.workers, 1, 16) {
        NodeAttr::WORKERS
    } else if !is_within(settings.tasks, 1, 65_536) {
        NodeAttr::TASKS
    } else if !is_within(settings.actions, 1, 1024) {
        NodeAttr::ACTIONS
    } else if !is_within(settings.groups, 1, 1024) {
        NodeAttr::GROUPS
    } else if !is_within(settings.queues, 1, 256) {
        NodeAttr::QUEUES
    } else if !is_within(settings.objects, 1, 256) {
        NodeAttr::OBJECTS
    } else if !is_within(settings.priorities, 1, 8) {
        NodeAttr::PRIORITIES
    } else if !is_within(settings.generations, 1, 4_294_967_295) {
        NodeAttr::GENERATIONS
    } else {
        0
    }
}

/// The number of the first setting that is out of its range, 9 where only the number of callers is, 0 where there is none.
pub fn wrong_of(settings: &Settings, callers: u32) -> u32
    ensures { result ≡ wrong_of settings.now callers }
{
    match first_wrong(settings) {
        0 => { if callers < 1 || callers > 9 { 9 } else { 0 } }
        wrong => wrong,
    }
}

/// The settings as those of a node.
pub fn attributes_of(settings: &Settings) -> NodeAttr
    requires { first_wrong node_attributes (asked_settings settings.now) ≡ 0 }
    ensures { result ≡ asked_settings settings.now }
{
    let mut attr = NodeAttr::new();
    let _ = attr.set(NodeAttr::WORKERS, u64::from(settings.workers));
    let _ = attr.set(NodeAttr::TASKS, u64::from(settings.tasks));
    let _ = attr.set(NodeAttr::ACTIONS, u64::from(settings.actions));
    let _ = attr.set(NodeAttr::GROUPS, u64::from(settings.groups));
    let _ = attr.set(NodeAttr::QUEUES, u64::from(settings.queues));
    let _ = attr.set(NodeAttr::OBJECTS, u64::from(settings.objects));
    let _ = attr.set(NodeAttr::PRIORITIES, u64::from(settings.priorities));
    let _ = attr.set(NodeAttr::GENERATIONS, u64::from(settings.generations));
    attr
}
