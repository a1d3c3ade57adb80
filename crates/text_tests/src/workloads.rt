ghost use Rattle.std.specs.Prelude.{◌<◌};

use std::alloc::Global;
use std::test::Fail;
use workload_file::*;

/// What reading a text in pieces of at most so many bytes tells a user.
fn told_in_pieces(alloc: Global, text: &[u8], most: usize) -> Result<String, Fail>
    requires { 0 < most }
{
    let mut src = MemSource::new(text.to_vec(alloc)?, most, Vec::new(alloc));
    match read_workload(alloc, &mut src) {
        Ok(_) => Ok(format!(in alloc; "ok")?),
        Err(LoadError::Memory) => Ok(format!(in alloc; "out of memory")?),
        Err(LoadError::Read) => Ok(format!(in alloc; "read fault")?),
        Err(LoadError::TooLong) => Ok(format!(in alloc; "workload too long")?),
        Err(LoadError::Refused { line, cause }) => {
            let cause = cause.text();
            Ok(format!(in alloc; "line {line}: {cause}")?)
        }
    }
}

/// What reading a text in pieces of 7 bytes tells a user. That the pieces make no difference is proved.
fn told(alloc: Global, text: &[u8]) -> Result<String, Fail> {
    told_in_pieces(alloc, text, 7)
}

/// Whether reading and writing a text gives this text. That it gives this text again is proved.
fn is_rewritten(alloc: Global, text: &[u8], want: &[u8]) -> Result<bool, Fail> {
    let mut src = MemSource::new(text.to_vec(alloc)?, 7, Vec::new(alloc));
    match read_workload(alloc, &mut src) {
        Ok(load) => Ok(text_of(alloc, &load)?.as_slice() == want),
        Err(_) => Err("not read")?,
    }
}

/// The text of a row, in which `;` stands for a line feed.
fn text_in(alloc: Global, row: &str) -> Result<Vec<u8>, Fail> {
    let mut text = Vec::new(alloc);
    for line in row.split(';') {
        text.extend_from_slice(line.as_bytes())?;
        text.push(b'\n')?;
    }
    let _ = text.pop();
    Ok(text)
}

/// The first row `TEXT => ANSWER` whose text is not answered so, with its answer.
fn first_wrong(alloc: Global, rows: &str) -> Result<String, Fail> {
    for row in rows.lines() {
        let Some((text, want)) = row.split_once(" => ") else {
            return Ok(format!(in alloc; "no row: {row}")?);
        };
        let got = told(alloc, &text_in(alloc, text)?)?;
        if got.as_str() != want {
            return Ok(format!(in alloc; "{row}, and not {got}")?);
        }
    }
    Ok(format!(in alloc; "none")?)
}

/// The first row `HEAD : ANSWER : VALUES` of which a text, the head with one of the values behind it, is not answered so.
fn first_wrong_value(alloc: Global, rows: &str) -> Result<String, Fail> {
    for row in rows.lines() {
        let Some((head, rest)) = row.split_once(" : ") else {
            return Ok(format!(in alloc; "no row: {row}")?);
        };
        let Some((want, values)) = rest.split_once(" : ") else {
            return Ok(format!(in alloc; "no row: {row}")?);
        };
        for value in values.split(' ') {
            let text = format!(in alloc; "{head}{value}")?;
            let got = told(alloc, &text_in(alloc, text.as_str())?)?;
            if got.as_str() != want {
                return Ok(format!(in alloc; "{row}, and not {got} of {value}")?);
            }
        }
    }
    Ok(format!(in alloc; "none")?)
}

/// A text with a number of bytes behind its head.
fn repeated(
    alloc: Global,
    head: &[u8],
    byte: u8,
    count: usize,
    tail: &[u8],
) -> Result<Vec<u8>, Fail> {
    let mut text = head.to_vec(alloc)?;
    for _ in 0..count {
        text.push(byte)?;
    }
    text.extend_from_slice(tail)?;
    Ok(text)
}

/// Lines `group g0`, `group g1` and so on.
fn groups(alloc: Global, count: usize) -> Result<Vec<u8>, Fail> {
    let mut text = Vec::new(alloc);
    for i in 0..count {
        let line = format!(in alloc; "group g{i}\n")?;
        text.extend_from_slice(line.as_bytes())?;
    }
    Ok(text)
}

/// Texts, and what is told of them.
const FAULTS: &str = " => ok
action a job=1 kind=add;start t job=1 args=1,2,3;wait t timeout=inf => ok
action a job=1 kind=add;start t job=1 args=1,2,3;wait t timeout=inf; => ok
node workers=4;action sum job=1 kind=add;action big job=2 kind=max cores=0,1;queue q id=7 job=1 ordered=yes;mutex m id=1;shmem s id=1 cells=4;begin;group g;start a job=2 args=3,9,4 group=g;start b job=2 args=-5,-2 group=g;start c job=1 args=10,20,30 group=g priority=1;start d job=2 args=8 group=g;wait_all g timeout=inf;caller feed;queue_get q id=7;mutex_get m id=1;shmem_get s id=1;attach s;enqueue x queue=q args=1,2;enqueue y queue=q args=3,4;lock m timeout=inf;write s cell=0 value=5;read s cell=0;unlock m key=1;wait x timeout=inf;wait y timeout=inf;detach s;caller tail;mutex_get m id=1;lock m timeout=inf;unlock m key=1 => ok
action a job=1 kind=add;start t job=1 args=1,2,3;wait t => line 3: option missing
action a job=1 kind=add;start t job=1 args=1,2,3;start t job=1 args=1,2,3;wait t timeout=inf => line 3: name taken
foo x => line 1: unknown word
foo;bar => line 1: unknown word
;# x;  ;foo => line 4: unknown word
  #~ => ok
;# a node;  ;node => ok
\x07 => line 1: bad byte
# caf\u{e9} => line 1: bad byte
 \t => line 1: bad byte
group g\r => line 1: bad byte
foo\tx => line 1: bad byte
group g\x7f => line 1: bad byte
Action a job=1 kind=add => line 1: unknown word
caller a;caller b;caller c;caller d;caller e;caller f;caller g;caller h => ok
caller a;caller b;caller c;caller d;caller e;caller f;caller g;caller h;caller i => line 9: too many callers
begin;begin => line 2: misplaced
caller a;begin => line 2: misplaced
group g;node => line 2: misplaced
group g;;node => line 3: misplaced
start => line 1: bad name
group abcdefghijklmnop => ok
group abcdefghijklmnopq => line 1: bad name
group 1a => line 1: bad name
group z_9 => ok
group aB => line 1: bad name
begin now => line 1: unknown option
group a x=1 => line 1: unknown option
action a kind=add x job=0 => line 1: unknown option
start t job=0 job=0 => line 1: option twice
start t job=1 job=2 => line 1: option twice
action a job=01 kind=add => line 1: bad value
action a job=+1 kind=add => line 1: bad value
action a job= kind=add => line 1: bad value
action a job=1=1 kind=add => line 1: bad value
start t job=1 args=-0 => line 1: bad value
start t job=1 args=1,2,3,4,5,6,7,8,9,10,11,12,13,14,15,16 => ok
start t job=1 args=1,2,3,4,5,6,7,8,9,10,11,12,13,14,15,16,17 => line 1: bad value
start t job=1 cores=1,1 => line 1: bad value
wait t timeout=1000001 => line 1: bad value
wait t => line 1: option missing
group g;group g => line 2: name taken
group ab;group ba;group a;group aa;group aab;group aba => ok
group abcdefghijklmnop;group abcdefghijklmnoq;group bbcdefghijklmnop => ok
group abcdefghijklmnop;group bbcdefghijklmnop;group abcdefghijklmnop => line 3: name taken
group zzzzzzzzzzzzzzzz;wait_all zzzzzzzzzzzzzzzz timeout=inf => ok
caller main => line 1: name taken
caller a;caller a => line 2: name taken
wait t timeout=inf => line 1: name unknown
group g;wait g timeout=inf => line 2: name unknown
group g;caller c;wait_any g timeout=inf => line 3: name unknown
start a job=1 group=g => line 1: name unknown
group n;enqueue t queue=n => line 2: name unknown
mutex s id=1;attach s => line 2: name unknown";

/// Lines that meet two causes at least, of which the first counts.
const FIRST: &str = "foo\x01 => line 1: bad byte
caller a;caller b;caller c;caller d;caller e;caller f;caller g;caller h;caller a x => line 9: too many callers
group g;node x workers=0 => line 2: misplaced
begin;begin now => line 2: misplaced
caller 1 x => line 1: bad name
wait T x => line 1: bad name
start t job=1 job=1 x => line 1: unknown option
start t job=1 jobs=1 => line 1: unknown option
start t =1 => line 1: unknown option
action a job=0 job=0 => line 1: option twice
action a job=0 => line 1: bad value
start t group=1 => line 1: bad value
group g;sem g id=1 => line 2: option missing
start t group=g => line 1: option missing
group a;start a job=1 group=g => line 2: name taken";

/// Each key that has a range: both ends, and what is one past them.
const RANGES: &str = "node workers= : ok : 1 16
node workers= : line 1: bad value : 0 17 4294967297 18446744073709551617
node max_tasks= : ok : 1 65536
node max_tasks= : line 1: bad value : 0 65537 4294967297 18446744073709551617
node max_actions= : ok : 1 1024
node max_actions= : line 1: bad value : 0 1025 4294967297 18446744073709551617
node max_groups= : ok : 1 1024
node max_groups= : line 1: bad value : 0 1025 4294967297 18446744073709551617
node max_queues= : ok : 1 256
node max_queues= : line 1: bad value : 0 257 4294967297 18446744073709551617
node max_objects= : ok : 1 256
node max_objects= : line 1: bad value : 0 257 4294967297 18446744073709551617
node priorities= : ok : 1 8
node priorities= : line 1: bad value : 0 9 4294967297 18446744073709551617
node generations= : ok : 1 4294967295
node generations= : line 1: bad value : 0 4294967296 18446744073709551617
action a kind=add job= : ok : 1 65535
action a kind=add job= : line 1: bad value : 0 65536 4294967297 18446744073709551617
start t job= : ok : 1 65535
start t job= : line 1: bad value : 0 65536 4294967297 18446744073709551617
queue q id=1 job= : ok : 1 65535
queue q id=1 job= : line 1: bad value : 0 65536 4294967297 18446744073709551617
start t job=1 priority= : ok : 0 7
start t job=1 priority= : line 1: bad value : -1 8 4294967297 18446744073709551617
queue q id=1 job=1 priority= : ok : 0 7
queue q id=1 job=1 priority= : line 1: bad value : -1 8 4294967297 18446744073709551617
queue q id=1 job=1 limit= : ok : 1 65536
queue q id=1 job=1 limit= : line 1: bad value : 0 65537 4294967297 18446744073709551617
sem s id=1 limit= : ok : 1 65535
sem s id=1 limit= : line 1: bad value : 0 65536 4294967297 18446744073709551617
rwl r id=1 limit= : ok : 1 32
rwl r id=1 limit= : line 1: bad value : 0 33 4294967297 18446744073709551617
shmem s id=1 cells= : ok : 1 4096
shmem s id=1 cells= : line 1: bad value : 0 4097 4294967297 18446744073709551617
shmem s id=1 cells=1;read s cell= : ok : 0 4095
shmem s id=1 cells=1;read s cell= : line 2: bad value : -1 4096 4294967297 18446744073709551617
shmem s id=1 cells=1;write s value=0 cell= : ok : 0 4095
shmem s id=1 cells=1;write s value=0 cell= : line 2: bad value : -1 4096 4294967297 18446744073709551617
queue q job=1 id= : ok : 0 4294967295
queue q job=1 id= : line 1: bad value : -1 4294967296 18446744073709551617
queue_get q id= : ok : 0 4294967295
queue_get q id= : line 1: bad value : -1 4294967296 18446744073709551617
mutex m id= : ok : 0 4294967295
mutex m id= : line 1: bad value : -1 4294967296 18446744073709551617
mutex_get m id= : ok : 0 4294967295
mutex_get m id= : line 1: bad value : -1 4294967296 18446744073709551617
sem s limit=1 id= : ok : 0 4294967295
sem s limit=1 id= : line 1: bad value : -1 4294967296 18446744073709551617
sem_get s id= : ok : 0 4294967295
sem_get s id= : line 1: bad value : -1 4294967296 18446744073709551617
rwl r limit=1 id= : ok : 0 4294967295
rwl r limit=1 id= : line 1: bad value : -1 4294967296 18446744073709551617
rwl_get r id= : ok : 0 4294967295
rwl_get r id= : line 1: bad value : -1 4294967296 18446744073709551617
shmem s cells=1 id= : ok : 0 4294967295
shmem s cells=1 id= : line 1: bad value : -1 4294967296 18446744073709551617
shmem_get s id= : ok : 0 4294967295
shmem_get s id= : line 1: bad value : -1 4294967296 18446744073709551617
mutex m id=1;unlock m key= : ok : 0 4294967295
mutex m id=1;unlock m key= : line 2: bad value : -1 4294967296 18446744073709551617
group g;wait_all g timeout= : ok : 0 1000000
group g;wait_all g timeout= : line 2: bad value : -1 1000001 4294967297 18446744073709551617";

/// The other kinds of values.
const VALUES: &str =
    "shmem s id=1 cells=1;write s cell=0 value= : ok : 0 -1 10 9223372036854775807 -9223372036854775808
shmem s id=1 cells=1;write s cell=0 value= : line 2: bad value :  - -0 +1 00 01 -01 --1 1.0 0x1 1,2 9223372036854775808 -9223372036854775809 18446744073709551616
start t job=1 args= : ok : 0 -1,1 9223372036854775807,-9223372036854775808 1,1,1,1,1,1,1,1,1,1,1,1,1,1,1,1
start t job=1 args= : line 1: bad value :  , 1, ,1 1,,2 -0 +1 01 1,-0 1,02 9223372036854775808 1,-9223372036854775809 1,1,1,1,1,1,1,1,1,1,1,1,1,1,1,1,1
start t job=1 cores= : ok : all 0 63 0,1 0,5,63
start t job=1 cores= : line 1: bad value :  , 0, ,0 64 -1 +1 00 01 1,1 0,1,1 2,1 0,2,1 all,0 0,all All 0,64
action a kind=add job= : ok : 1 10
action a kind=add job= : line 1: bad value :  01 +1 -1 1=1 1a 0x1
action a job=1 kind= : ok : add mul max div gcd echo triangle fail watch
action a job=1 kind= : line 1: bad value :  sum Add add,mul added
group g;wait_any g timeout= : ok : nowait inf 0 1000000
group g;wait_any g timeout= : line 2: bad value :  1000001 -1 00 +1 infinite NOWAIT all
rwl r id=1 limit=1;rwl_unlock r mode= : ok : reader writer
rwl r id=1 limit=1;rwl_unlock r mode= : line 2: bad value :  x Reader yes
start t job=1 detached= : ok : yes no
start t job=1 detached= : line 1: bad value :  Yes 1 maybe
queue q id=1 job=1 ordered= : ok : yes no
queue q id=1 job=1 ordered= : line 1: bad value :  Yes 1 maybe
queue q id=1 job=1 retain= : ok : yes no
queue q id=1 job=1 retain= : line 1: bad value :  Yes 1 maybe
mutex m id=1 recursive= : ok : yes no
mutex m id=1 recursive= : line 1: bad value :  Yes 1 maybe
group g;start t job=1 group= : ok : g
group g;start t job=1 group= : line 2: bad value :  G 1 _g g- abcdefghijklmnopq";

/// Each statement that binds a name, behind the kind of object.
const BINDERS: &str = "action action n job=1 kind=add
task start n job=1
group group n
queue queue n id=1 job=1
queue queue_get n id=1
mutex mutex n id=1
mutex mutex_get n id=1
sem sem n id=1 limit=1
sem sem_get n id=1
rwl rwl n id=1 limit=1
rwl rwl_get n id=1
shmem shmem n id=1 cells=1
shmem shmem_get n id=1";

/// Each use of a name, behind the kind of object.
const USERS: &str = "action action_delete n
action action_enable n
action action_disable n
task wait n timeout=inf
task cancel n
group wait_all n timeout=inf
group wait_any n timeout=inf
group group_delete n
group start x job=1 group=n
queue queue_enable n
queue queue_disable n
queue queue_delete n
queue enqueue x queue=n
mutex mutex_delete n
mutex lock n timeout=inf
mutex unlock n key=1
sem sem_delete n
sem sem_lock n timeout=inf
sem sem_unlock n
rwl rwl_delete n
rwl rwl_lock n mode=reader timeout=inf
rwl rwl_unlock n mode=reader
shmem shmem_delete n
shmem attach n
shmem detach n
shmem read n cell=0
shmem write n cell=0 value=0";

/// Texts and their canonical texts.
const TEXTS: &str = " => 
;;# nothing; => 
# c;node workers=1;action a job=1 kind=add cores=all => ;node;action a job=1 kind=add
  group   g ;;start t  group=g priority=0 args=-7 job=2 cores=63 detached=no => group g;;start t job=2 args=-7 cores=63 group=g
action a job=1 kind=watch cores=0,1,2,3,4,5,6,7,8,9,10,11,12,13,14,15,16,17,18,19,20,21,22,23,24,25,26,27,28,29,30,31,32,33,34,35,36,37,38,39,40,41,42,43,44,45,46,47,48,49,50,51,52,53,54,55,56,57,58,59,60,61,62,63 => action a job=1 kind=watch
action a job=1 kind=watch cores=0,1,2,3,4,5,6,7,8,9,10,11,12,13,14,15,16,17,18,19,20,21,22,23,24,25,26,27,28,29,30,31,32,33,34,35,36,37,38,39,40,41,42,43,44,45,46,47,48,49,50,51,52,53,54,55,56,57,58,59,60,61,62 => action a job=1 kind=watch cores=0,1,2,3,4,5,6,7,8,9,10,11,12,13,14,15,16,17,18,19,20,21,22,23,24,25,26,27,28,29,30,31,32,33,34,35,36,37,38,39,40,41,42,43,44,45,46,47,48,49,50,51,52,53,54,55,56,57,58,59,60,61,62
queue q retain=yes id=0 limit=65536 job=1 ordered=no;rwl r limit=2 id=3;rwl_lock r timeout=5 mode=reader => queue q id=0 job=1 retain=yes;rwl r id=3 limit=2;rwl_lock r mode=reader timeout=5
group g;caller c;# x;sem s id=1 limit=1;sem_lock s timeout=nowait => group g;caller c;;sem s id=1 limit=1;sem_lock s timeout=nowait
node workers=1 max_tasks=1024 max_actions=64 max_groups=128 max_queues=16 max_objects=16 priorities=4 generations=4294967295;action a job=1 kind=add cores=all;queue q id=1 job=1 priority=0 limit=65536 ordered=no retain=no;start t job=1 priority=0 cores=all detached=no;enqueue u queue=q cores=all detached=no;mutex m id=1 recursive=no; => node;action a job=1 kind=add;queue q id=1 job=1;start t job=1;enqueue u queue=q;mutex m id=1";

/// The realistic workload, as a user writes it.
const REALISTIC: &str = "node workers=4
action sum job=1 kind=add
action big job=2 kind=max cores=0,1
queue q id=7 job=1 ordered=yes
mutex m id=1
shmem s id=1 cells=4
begin
group g
start a job=2 args=3,9,4 group=g
start b job=2 args=-5,-2 group=g
start c job=1 args=10,20,30 group=g priority=1
start d job=2 args=8 group=g
wait_all g timeout=inf
caller feed
queue_get q id=7
mutex_get m id=1
shmem_get s id=1
attach s
enqueue x queue=q args=1,2
enqueue y queue=q args=3,4
lock m timeout=inf
write s cell=0 value=5
read s cell=0
unlock m key=1
wait x timeout=inf
wait y timeout=inf
detach s
caller tail
mutex_get m id=1
lock m timeout=inf
unlock m key=1
";

/// Each statement, with each of its options.
const EVERY: &str =
    "node workers=2 max_tasks=3 max_actions=4 max_groups=5 max_queues=6 max_objects=7 priorities=8 generations=9
action a job=65535 kind=watch cores=0,63
action_disable a
action_enable a
group g
begin
queue q id=4294967295 job=2 priority=7 limit=1 ordered=yes retain=yes
queue_get p id=1
start t job=1 args=1,-1 priority=3 cores=1 detached=yes group=g
enqueue u queue=q args=0 cores=2,3 detached=yes group=g
wait t timeout=nowait
cancel u
wait_all g timeout=0
wait_any g timeout=1000000
group_delete g
queue_disable q
queue_enable q
queue_delete p
mutex m id=0 recursive=yes
mutex_get n id=0
lock m timeout=inf
unlock n key=4294967295
mutex_delete m
sem s id=1 limit=65535
sem_get r id=1
sem_lock s timeout=5
sem_unlock s
sem_delete s
rwl l id=1 limit=32
rwl_get k id=1
rwl_lock l mode=writer timeout=5
rwl_unlock l mode=reader
rwl_delete l
shmem h id=1 cells=4096
shmem_get i id=1
attach h
detach h
read h cell=4095
write h cell=1 value=-9223372036854775808
shmem_delete h
action_delete a
caller c";

/// One task, and a wait for it.
const ROW: &str = "action a job=1 kind=add
start t job=1 args=1,2,3
wait t timeout=inf";

#[test]
fn faults(rt: HostRuntime) -> Result<(), Fail> {
    let a = rt.alloc();
    assert_eq!(rt; first_wrong(a, FAULTS)?.as_str(), "none");
    assert_eq!(rt; first_wrong(a, FIRST)?.as_str(), "none");
    Ok(())
}

#[test]
fn values_of_options(rt: HostRuntime) -> Result<(), Fail> {
    let a = rt.alloc();
    assert_eq!(rt; first_wrong_value(a, RANGES)?.as_str(), "none");
    assert_eq!(rt; first_wrong_value(a, VALUES)?.as_str(), "none");
    Ok(())
}

/// Whether a use of a name behind a statement that binds it is accepted exactly where the kinds of object are the same.
fn told_of_use(alloc: Global, binder: &str, user: &str) -> Result<bool, Fail> {
    let Some((bound, first)) = binder.split_once(" ") else {
        return Ok(false);
    };
    let Some((used, second)) = user.split_once(" ") else {
        return Ok(false);
    };
    let text = format!(in alloc; "{first}\n{second}")?;
    let want = if bound == used {
        "ok"
    } else {
        "line 2: name unknown"
    };
    Ok(told(alloc, text.as_bytes())?.as_str() == want)
}

/// The first use of a name that is not answered as it should be behind this statement.
fn first_wrong_use(alloc: Global, binder: &str) -> Result<String, Fail> {
    for user in USERS.lines() {
        if !told_of_use(alloc, binder, user)? {
            return Ok(format!(in alloc; "{binder}, {user}")?);
        }
    }
    Ok(format!(in alloc; "none")?)
}

#[test]
fn uses_of_names(rt: HostRuntime) -> Result<(), Fail> {
    let a = rt.alloc();
    for binder in BINDERS.lines() {
        assert_eq!(rt; first_wrong_use(a, binder)?.as_str(), "none");
    }
    Ok(())
}

#[test]
fn long_lines(rt: HostRuntime) -> Result<(), Fail> {
    let a = rt.alloc();
    let long = "line 1: line too long";
    assert_eq!(rt; told(a, &repeated(a, b"", b'#', 512, b"")?)?.as_str(), "ok");
    assert_eq!(rt; told(a, &repeated(a, b"", b'#', 513, b"")?)?.as_str(), long);
    assert_eq!(rt;
        told(a, &repeated(a, b"group g", b' ', 505, b"")?)?.as_str(),
        "ok"
    );
    assert_eq!(rt;
        told(a, &repeated(a, b"group g", b' ', 506, b"")?)?.as_str(),
        long
    );
    assert_eq!(rt;
        told(a, &repeated(a, b"", b' ', 513, b"\n")?)?.as_str(),
        long
    );
    assert_eq!(rt;
        told(a, &repeated(a, b"", b'a', 513, b"\n")?)?.as_str(),
        long
    );
    assert_eq!(rt;
        told(a, &repeated(a, b"\t", b'a', 512, b"")?)?.as_str(),
        long
    );
    assert_eq!(rt;
        told(a, &repeated(a, b"", b'#', 512, b"\t")?)?.as_str(),
        long
    );
    assert_eq!(rt;
        told(a, &repeated(a, b"group g\n# x\n#", b'x', 512, b"\nfoo")?)?.as_str(),
        "line 3: line too long"
    );
    Ok(())
}

#[test]
fn many_statements(rt: HostRuntime) -> Result<(), Fail> {
    let a = rt.alloc();
    let all = groups(a, 20000)?;
    assert_eq!(rt; told_in_pieces(a, &all, 4096)?.as_str(), "ok");
    let one_more = groups(a, 20001)?;
    assert_eq!(rt;
        told(a, &one_more)?.as_str(),
        "line 20001: too many statements"
    );
    Ok(())
}

/// What is told of a line behind 20,000 statements.
fn told_behind_many(alloc: Global, line: &[u8]) -> Result<String, Fail> {
    let mut text = groups(alloc, 20000)?;
    text.extend_from_slice(line)?;
    told_in_pieces(alloc, &text, 4096)
}

#[test]
fn behind_many_statements(rt: HostRuntime) -> Result<(), Fail> {
    let a = rt.alloc();
    assert_eq!(rt;
        told_behind_many(a, b"caller main x")?.as_str(),
        "line 20001: too many statements"
    );
    assert_eq!(rt;
        told_behind_many(a, b"# none\n\nfoo")?.as_str(),
        "line 20003: unknown word"
    );
    Ok(())
}

#[test]
fn many_bytes(rt: HostRuntime) -> Result<(), Fail> {
    let a = rt.alloc();
    let lines = repeated(a, b"", b'\n', 1_048_576, b"")?;
    assert_eq!(rt; told_in_pieces(a, &lines, 1_048_576)?.as_str(), "ok");
    let spaces = repeated(a, b"", b' ', 1_048_577, b"")?;
    assert_eq!(rt; told(a, &spaces)?.as_str(), "workload too long");
    let mut src = MemSource::new(ROW.as_bytes().to_vec(a)?, 20, vec![in a; 2]?);
    assert!(rt; matches!(read_workload(a, &mut src), Err(LoadError::Read)));
    Ok(())
}

/// Whether reading a text of 10,000 groups and 10,000 waits, each for one of them, gives a workload.
#[test]
fn many_names(rt: HostRuntime) -> Result<(), Fail> {
    let a = rt.alloc();
    let mut text = groups(a, 10000)?;
    for i in 0..10000 {
        let line = format!(in a; "wait_all g{i} timeout=inf\n")?;
        text.extend_from_slice(line.as_bytes())?;
    }
    assert_eq!(rt; told_in_pieces(a, &text, 4096)?.as_str(), "ok");
    Ok(())
}

/// The first row `TEXT => CANONICAL` that is wrong.
fn first_wrong_text(alloc: Global, rows: &str) -> Result<String, Fail> {
    for row in rows.lines() {
        let Some((text, want)) = row.split_once(" => ") else {
            return Ok(format!(in alloc; "no row: {row}")?);
        };
        if !is_rewritten(alloc, &text_in(alloc, text)?, &text_in(alloc, want)?)? {
            return Ok(format!(in alloc; "{row}")?);
        }
    }
    Ok(format!(in alloc; "none")?)
}

#[test]
fn texts(rt: HostRuntime) -> Result<(), Fail> {
    let a = rt.alloc();
    assert_eq!(rt; first_wrong_text(a, TEXTS)?.as_str(), "none");
    assert!(rt; is_rewritten(a, ROW.as_bytes(), ROW.as_bytes())?);
    let (head, tail) = REALISTIC
        .split_once("group=g priority=1")
        .ok_or("no such row")?;
    let tail = tail.trim_end();
    let canonical = format!(in a; "{head}priority=1 group=g{tail}")?;
    assert!(rt; is_rewritten(a, REALISTIC.as_bytes(), canonical.as_bytes())?);
    assert!(rt; is_rewritten(a, EVERY.as_bytes(), EVERY.as_bytes())?);
    Ok(())
}

#[test]
fn lists(rt: HostRuntime) -> Result<(), Fail> {
    let a = rt.alloc();
    let mut statements = StatementList::new(a);
    statements.push(Statement {
        line: 1,
        name: Name::new(b"g"),
        deed: Deed::Group,
    })?;
    assert_eq!(rt; statements.as_slice().len(), 1);
    let name = Name::new(b"main").ok_or("no name")?;
    assert_eq!(rt; name.as_slice(), b"main".as_slice());
    let mut parts = PartList::new(a);
    parts.push(Part {
        line: 0,
        name,
        statements,
    })?;
    assert_eq!(rt; parts.as_slice().len(), 1);
    assert!(rt; Name::new(b"1").is_none());
    assert_eq!(rt; Cause::Misplaced.text(), "misplaced");
    law_formed();
    Ok(())
}
