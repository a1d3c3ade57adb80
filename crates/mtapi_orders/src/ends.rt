//! How the program ends.

use std::alloc::{AllocError, Global};
use workload_file::{Cause, LoadError, Sink, write_all};

/// How the program ended, or why it couldn't go on.
#[derive(Clone, Copy, Drop)]
pub enum OrdersEnd {
    /// All was found that the search finds, and written.
    Whole,
    /// There is not one report alone, though that was asked for.
    NotOne,
    /// There were more states than may be followed.
    Cut,
    /// So many journals that the search made were judged to be none of a run.
    Misjudged(u64),
    /// Its two searches found different things.
    Differ,
    Usage,
    Refused(u64, Cause),
    TooLong,
    TooLarge,
    Retires,
    ReadFault,
    WriteFault,
    Memory,
}

impl From<AllocError> for OrdersEnd {
    fn from(_error: AllocError) -> OrdersEnd {
        OrdersEnd::Memory
    }
}

impl From<LoadError> for OrdersEnd {
    fn from(error: LoadError) -> OrdersEnd {
        match error {
            LoadError::Memory => OrdersEnd::Memory,
            LoadError::Read => OrdersEnd::ReadFault,
            LoadError::TooLong => OrdersEnd::TooLong,
            LoadError::Refused { line, cause } => OrdersEnd::Refused(line, cause),
        }
    }
}

/// The status of an end.
fn status_of(end: OrdersEnd) -> u8 {
    match end {
        OrdersEnd::Whole => 0,
        OrdersEnd::NotOne => 1,
        OrdersEnd::Usage => 2,
        OrdersEnd::Refused(..) | OrdersEnd::TooLong => 3,
        OrdersEnd::TooLarge | OrdersEnd::Retires => 3,
        OrdersEnd::ReadFault => 4,
        OrdersEnd::WriteFault => 5,
        OrdersEnd::Memory => 6,
        OrdersEnd::Cut => 10,
        OrdersEnd::Misjudged(_) | OrdersEnd::Differ => 126,
    }
}

/// What is said of an end that needs no numbers.
fn plain_text(end: OrdersEnd) -> &'static [u8] {
    match end {
        OrdersEnd::Usage => b"usage: mtapi orders [--one | --journals] [STATES]\n",
        OrdersEnd::TooLong => b"mtapi: workload too long\n",
        OrdersEnd::TooLarge => b"mtapi: orders: a workload of more than 65,000 statements\n",
        OrdersEnd::Retires =>
            b"mtapi: orders: with these generations and limits a slot may retire, which orders doesn't follow\n",
        OrdersEnd::Differ =>
            b"mtapi: orders: its two searches differ: one of them is at fault, and reports may be missing\n",
        OrdersEnd::ReadFault => b"mtapi: read fault\n",
        OrdersEnd::WriteFault => b"mtapi: write fault\n",
        OrdersEnd::Memory => b"mtapi: out of memory\n",
        _ => b"",
    }
}

/// What is said of an end.
fn text_of(alloc: Global, end: OrdersEnd) -> Result<Vec<u8>, AllocError> {
    let mut text = Vec::new(alloc);
    match end {
        OrdersEnd::Refused(line, cause) => {
            let cause = cause.text();
            let said = format!(in alloc; "mtapi: line {line}: {cause}\n")?;
            text.extend_from_slice(said.as_bytes())?;
        }
        OrdersEnd::Misjudged(count) => {
            let said = format!(in alloc;
                "mtapi: orders: {count} of the journals that it made are none of a run: it is at fault, and reports may be missing\n"
            )?;
            text.extend_from_slice(said.as_bytes())?;
        }
        other => text.extend_from_slice(plain_text(other))?,
    }
    Ok(text)
}

/// Says how it ended, and answers the status.
pub fn tell<E: Sink>(alloc: Global, end: OrdersEnd, err: &mut E) -> u8 {
    match text_of(alloc, end) {
        Ok(text) => {
            let _ = write_all(err, &text);
            status_of(end)
        }
        Err(_) => {
            let _ = write_all(err, plain_text(OrdersEnd::Memory));
            status_of(OrdersEnd::Memory)
        }
    }
}
