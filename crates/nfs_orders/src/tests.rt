//! What each line orders, how lines wait, and each answer's words.

use crate::{Answer, ClientPath, Order, OrderError, OrderLines, OrderQueue, SweptCounts};
use std::alloc::{AllocError, Global};
use std::test::Fail;

const UP: ClientPath = ClientPath {
    client: 1,
    is_up: true,
};

const DOWN: ClientPath = ClientPath {
    client: 4_294_967_295,
    is_up: false,
};

const COUNTS: SweptCounts = SweptCounts {
    expired: 1,
    refused: 0,
    revoked: 2,
    forgotten: 3,
    is_stopped: false,
};

const STOPPED: SweptCounts = SweptCounts {
    expired: 0,
    refused: 4,
    revoked: 0,
    forgotten: 0,
    is_stopped: true,
};

// Each line that is an order.
const ORDERS: [(&str, Order); 13] = [
    ("advance 91", Order::Advance(91)),
    ("  advance   0 ", Order::Advance(0)),
    ("advance 99999999999999999999", Order::Advance(u64::MAX)),
    ("sweep", Order::Sweep),
    ("moment", Order::Moment),
    ("mark 1 up", Order::Mark(UP)),
    ("mark 4294967295 down", Order::Mark(DOWN)),
    ("wait up 1", Order::Wait(UP, 5)),
    ("wait up 1 1", Order::Wait(UP, 1)),
    ("wait down 4294967295 600", Order::Wait(DOWN, 600)),
    ("entries", Order::Entries),
    ("journal", Order::Journal),
    ("end", Order::End),
];

// Lines that are none.
const OTHERS: [&str; 19] = [
    "",
    " ",
    "advance",
    "advance -1",
    "advance 1 2",
    "advance 1s",
    "Sweep",
    "sweep\r",
    "sweep now",
    "moment 1",
    "mark 1",
    "mark up 1",
    "mark 4294967296 up",
    "wait 1 up",
    "wait up 1 0",
    "wait up 1 601",
    "wait up 1 2 3",
    "end up",
    "begin",
];

// Each answer's words.
const ANSWERS: [(&str, Answer); 17] = [
    ("moment 91", Answer::Moment(91)),
    (
        "moment 91: expired 1 revoked 2 forgotten 3",
        Answer::Swept(91, COUNTS),
    ),
    (
        "moment 0: expired 0 revoked 0 forgotten 0 refused 4 stopped",
        Answer::Swept(0, STOPPED),
    ),
    ("client 1 up", Answer::Path(UP)),
    ("client 4294967295 down", Answer::Path(DOWN)),
    ("entries 7", Answer::Entries(7)),
    ("journal 7 entries", Answer::Journal(7)),
    ("ended", Answer::Ended),
    (
        "error: a line has 1024 bytes at most",
        Answer::Error(OrderError::TooLong),
    ),
    (
        "error: the input ends inside the line",
        Answer::Error(OrderError::Cut),
    ),
    (
        "error: 64 orders wait already",
        Answer::Error(OrderError::TooMany),
    ),
    (
        "error: a moment is 9 at most",
        Answer::Error(OrderError::Moment(9)),
    ),
    (
        "error: client 1 isn't live",
        Answer::Error(OrderError::NotLive(1)),
    ),
    (
        "error: not within 5 s",
        Answer::Error(OrderError::NotWithin(5)),
    ),
    ("error: the run ends", Answer::Error(OrderError::RunEnds)),
    (
        "error: the journal is full",
        Answer::Error(OrderError::Full),
    ),
    ("error: no memory", Answer::Error(OrderError::Memory)),
];

#[test]
fn reads_orders(rt: HostRuntime) -> Result<(), Fail> {
    for (line, order) in &ORDERS {
        assert!(rt; Order::read(line.as_bytes()) == Ok(*order));
    }
    for line in &OTHERS {
        assert!(rt; Order::read(line.as_bytes()) == Err(OrderError::NoOrder));
    }
    Ok(())
}

#[test]
fn writes_answers(rt: HostRuntime) -> Result<(), Fail> {
    for (words, answer) in &ANSWERS {
        let text = format!(in rt.alloc(); "{answer}")?;
        assert!(rt; text.as_str() == *words);
    }
    Ok(())
}

// What comes of the lines of this input, and then of its end.
fn lines_of(alloc: Global, input: &[u8]) -> Result<Vec<Result<Order, OrderError>>, AllocError> {
    let mut lines = OrderLines::new();
    let mut all = Vec::new(alloc);
    for byte in input {
        if let Some(order) = lines.take(*byte) {
            all.push(order)?;
        }
    }
    if let Some(error) = lines.end() {
        all.push(Err(error))?;
    }
    Ok(all)
}

#[test]
fn takes_lines(rt: HostRuntime) -> Result<(), Fail> {
    let alloc = rt.alloc();
    let all = lines_of(alloc, b"sweep\n\nend\nmom")?;
    let wanted = [
        Ok(Order::Sweep),
        Err(OrderError::NoOrder),
        Ok(Order::End),
        Err(OrderError::Cut),
    ];
    assert!(rt; all.as_slice() == wanted.as_slice());
    Ok(())
}

// What comes of a line that begins with an order, and has so many bytes.
fn long_line(alloc: Global, count: usize) -> Result<Vec<Result<Order, OrderError>>, AllocError> {
    let mut line = Vec::new(alloc);
    line.extend_from_slice(b"sweep")?;
    line.resize(count, b' ')?;
    line.extend_from_slice(b"\nsweep\n")?;
    lines_of(alloc, line.as_slice())
}

#[test]
fn refuses_long_lines(rt: HostRuntime) -> Result<(), Fail> {
    let longest = [Ok(Order::Sweep), Ok(Order::Sweep)];
    assert!(rt; long_line(rt.alloc(), 1_024)?.as_slice() == longest.as_slice());
    let too_long = [Err(OrderError::TooLong), Ok(Order::Sweep)];
    assert!(rt; long_line(rt.alloc(), 1_025)?.as_slice() == too_long.as_slice());
    Ok(())
}

#[test]
fn keeps_the_order_of_lines(rt: HostRuntime) -> Result<(), Fail> {
    let mut queue = OrderQueue::new(rt.alloc())?;
    for number in 0..70u64 {
        queue.put(Ok(Order::Advance(number)));
    }
    assert!(rt; queue.take() == Some(Ok(Order::Advance(0))));
    queue.put(Ok(Order::Sweep));
    for number in 1..64u64 {
        assert!(rt; queue.take() == Some(Ok(Order::Advance(number))));
    }
    for _ in 0..6 {
        assert!(rt; queue.take() == Some(Err(OrderError::TooMany)));
    }
    assert!(rt; queue.take() == Some(Ok(Order::Sweep)));
    assert!(rt; queue.is_empty());
    Ok(())
}
