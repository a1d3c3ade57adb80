//! The statements and the values of options, as a user is told of them. The reader decides; this is what it says no to.
use crate::mistakes::Meant;
use crate::words::are_near;

/// What each statement binds, its word, and what stands behind it; brackets around what may be absent.
const STATEMENTS: &str = "\
node node [workers=] [max_tasks=] [max_actions=] [max_groups=] [max_queues=] [max_objects=] [priorities=] [generations=]
caller caller NAME
begin begin
action action NAME job= kind= [cores=]
- action_delete NAME
- action_enable NAME
- action_disable NAME
task start NAME job= [args=] [priority=] [cores=] [detached=] [group=]
task enqueue NAME queue= [args=] [cores=] [detached=] [group=]
- wait NAME timeout=
- cancel NAME
group group NAME
- wait_all NAME timeout=
- wait_any NAME timeout=
- group_delete NAME
queue queue NAME id= job= [priority=] [limit=] [ordered=] [retain=]
queue queue_get NAME id=
- queue_enable NAME
- queue_disable NAME
- queue_delete NAME
mutex mutex NAME id= [recursive=]
mutex mutex_get NAME id=
- mutex_delete NAME
- lock NAME timeout=
- unlock NAME key=
sem sem NAME id= limit=
sem sem_get NAME id=
- sem_delete NAME
- sem_lock NAME timeout=
- sem_unlock NAME
rwl rwl NAME id= limit=
rwl rwl_get NAME id=
- rwl_delete NAME
- rwl_lock NAME mode= timeout=
- rwl_unlock NAME mode=
shmem shmem NAME id= cells=
shmem shmem_get NAME id=
- shmem_delete NAME
- attach NAME
- detach NAME
- read NAME cell=
- write NAME cell= value=";

/// The ten kinds of action.
pub const KINDS: &str = "add mul max div gcd echo triangle fail watch tally";

/// What each option may be.
const VALUES: &str = "\
job a number from 1 to 65,535
kind one of the kinds
cores all, or cores from 0 to 63 with commas between them, ascending: a list has no ranges
args 1 to 16 whole numbers with commas between them, each in decimal digits
value a whole number in decimal digits
priority a number from 0 to 7
detached yes or no
ordered yes or no
retain yes or no
recursive yes or no
group a name
queue a name
timeout nowait, inf, or a number of looks from 0 to 1,000,000, and no time
id a number from 0 to 4,294,967,295
key a number from 0 to 4,294,967,295
limit a number from 1 to 65,536 of a queue, 65,535 of a semaphore, 32 of a reader-writer lock
cells a number from 1 to 4,096
cell a number from 0 to 4,095
mode reader or writer
workers a number from 1 to 16
max_tasks a number from 1 to 65,536
max_actions a number from 1 to 1,024
max_groups a number from 1 to 1,024
max_queues a number from 1 to 256
max_objects a number from 1 to 256
priorities a number from 1 to 8
generations a number from 1 to 4,294,967,295";

/// A statement, as a user is told of it.
#[derive(Clone, Copy, Drop)]
pub struct Row {
    /// What it binds, or how it stands in for itself.
    pub binds: &'static str,
    /// Its word, and what stands behind it.
    pub usage: &'static str,
}

impl Row {
    /// Its word.
    pub fn word(&self) -> &'static str {
        match self.usage.split_once(' ') {
            Some((word, _)) => word,
            None => self.usage,
        }
    }

    /// Whether its second word is a name.
    pub fn is_named(&self) -> bool {
        self.usage.contains(" NAME")
    }

    /// Whether it binds its name to an object.
    pub fn is_binder(&self) -> bool {
        !matches!(
            self.meant(),
            Meant::Nothing | Meant::Node | Meant::Begin | Meant::Caller
        )
    }

    /// What a line of it is taken to have bound.
    pub fn meant(&self) -> Meant {
        match self.binds {
            "node" => Meant::Node,
            "begin" => Meant::Begin,
            "caller" => Meant::Caller,
            "action" => Meant::Action,
            "task" => Meant::Task,
            "group" => Meant::Group,
            "queue" => Meant::Queue,
            "mutex" => Meant::Mutex,
            "sem" => Meant::Sem,
            "rwl" => Meant::Rwl,
            "shmem" => Meant::Shmem,
            _ => Meant::Nothing,
        }
    }
}

/// The statement of a word, or else the first whose word is one letter away.
pub fn row_of(word: &[u8]) -> Option<Row> {
    let mut near = None;
    for line in STATEMENTS.lines() {
        if let Some((binds, usage)) = line.split_once(' ') {
            let row = Row { binds, usage };
            let name = row.word().as_bytes();
            if name == word {
                return Some(row);
            }
            if near.is_none() && are_near(name, word) {
                near = Some(row);
            }
        }
    }
    near
}

/// What an option may be.
pub fn value_text(key: &[u8]) -> &'static str {
    for line in VALUES.lines() {
        if let Some((name, text)) = line.split_once(' ') {
            if name.as_bytes() == key {
                return text;
            }
        }
    }
    ""
}
