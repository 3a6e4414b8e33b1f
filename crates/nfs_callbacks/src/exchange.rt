//! A callback's exchange: the call goes out on the client's connection, and a reply comes in.
ghost use Rattle.std.specs.Prelude.{◌≡◌, ◌↔◌, ◌+◌, ◌≤◌, ◌^◌, List, drop, IfNone, IfOk, IfSome, IsTrue, length, take, true, false};
ghost use Rattle.nfs_callbacks.specs.Exchanges.{ComesTo, Conversation, GoesOnBy, HasCome, HasLongFragment, HasNoReply, HasReply, IsBegun, IsTooLong, IsVerdict, SaysIn, SaysOut, beginning};
ghost use Rattle.nfs_callbacks.specs.Network.{MovesWithin, Talk, hearing};
ghost use Rattle.nfs_callbacks.specs.declared.exchange.Progress.TheVariants as progresses;
ghost use Rattle.nfs_callbacks.specs.declared.exchange.TheConstants.{PLACE_LEN};
ghost use Rattle.nfs_callbacks.specs.declared.exchange.Verdict.TheVariants as verdicts;

use crate::errand::Errand;
use crate::flow::{ConnectError, Moved};
use crate::reply::read_answer;
use crate::{Fault, Network};
use nfs_rpc::{RecordError, Records, one_split, socket_address};
use std::alloc::{AllocError, Global};
use std::marker::Model;
use std::time::Duration;
use xdr::WireError;

// How many bytes are read at most, the headers of fragments included. If these have no whole record, the call has
// failed.
const PLACE_LEN: usize = 4_097;

// For how many checks a call goes on if its client has another callback by now.
const CHECKS_LEFT: u32 = 10;

// After how many seconds without a reply notice is taken.
const NOTICE_SECS: u64 = 5;

// The bits of a fragment's header that are its length (RFC 5531, section 11).
const FRAGMENT_LEN: u32 = 0x7fff_ffff;

// How often a read or a write is tried in one look. Each takes a byte at least, unless a signal came.
const TRIES: u32 = 8_192;

/// How far an exchange is.
#[derive(Clone, Copy, PartialEq, Eq)]
pub(crate) enum Progress {
    /// The reply isn't there yet.
    UnderWay,
    /// The connection has more to say, or memory was refused to take the reply apart.
    Stalled,
    /// The callback reached the client, or didn't for this reason.
    Ended(Result<(), Fault>),
}

// How far the bytes of one direction are.
#[derive(Clone, Copy, PartialEq, Eq)]
enum Flow {
    // Further bytes may go on at once.
    Open,
    // The connection takes or gives nothing for now.
    Blocked,
    // All of them are through, or as many as there may be.
    Over,
    // The connection failed, or the peer has ended it.
    Broken(Fault),
}

// What the bytes that were read say.
#[derive(Clone, Copy, PartialEq, Eq)]
enum Verdict {
    // The first record says this to the call.
    Reply(Result<(), Fault>),
    // There is no whole record.
    Unfinished,
    // Memory was refused to take them apart.
    Memory,
}

/// The exchange of a callback: a call goes out, and a reply comes in.
#[derive(Drop)]
pub(crate) struct Exchange {
    alloc: Global,
    xid: u32,
    is_compound: bool,
    // The call's record.
    call: Vec<u8>,
    // How many bytes of the call's record are written.
    sent_len: usize,
    // The place of the bytes that were read.
    place: Vec<u8>,
    // How many bytes were read.
    reply_len: usize,
    is_stalled: bool,
    // For how many more checks it goes on if its client has another callback.
    checks_left: u32,
    // When it was begun, by the monotonic clock.
    begun_at: Duration,
    // Whether the state has taken notice that there is no reply yet.
    is_noticed: bool,
}

impl Model for Exchange {
    ghost Value = { Conversation };

    ghost view = { λ e. record {
      xid = e.xid;
      is_compound = e.is_compound;
      unsent = drop e.sent_len e.call.items;
      reply = take e.reply_len e.place.items;
      is_stalled = e.is_stalled;
    } };

    ghost invariant = { λ e. (e.sent_len ≤ length e.call.items)
        × (e.reply_len ≤ length e.place.items) × (length e.place.items ≡ PLACE_LEN) };
}

impl Exchange {
    /// Begins to connect to the client.
    pub(crate) fn begin<D: Network>(
        alloc: Global,
        net: &mut D,
        client: u32,
        errand: &Errand,
        xid: u32,
        now: Duration,
    ) -> Result<Exchange, ConnectError>
        ensures { IsBegun D.carries client errand.now xid result net.old net.new }
    {
        let Some(address) = socket_address(&errand.callback().address) else {
            return Err(ConnectError::Fault(Fault::NoAddress));
        };
        let Ok(exchange) = Exchange::new(alloc, errand, xid, now) else {
            return Err(ConnectError::Refused);
        };
        match net.connect(client, address) {
            Ok(()) => Ok(exchange),
            Err(error) => Err(error),
        }
    }

    fn new(alloc: Global, errand: &Errand, xid: u32, now: Duration) -> Result<Exchange, WireError>
        ensures { IfOk result (λ e. e ≡ beginning xid errand.now) }
    {
        let call = errand.call(alloc, xid)?;
        let Ok(place) = Vec::from_elem(alloc, 0u8, PLACE_LEN) else {
            return Err(WireError::Memory);
        };
        Ok(Exchange {
            alloc,
            xid,
            is_compound: errand.is_compound(),
            call,
            sent_len: 0,
            place,
            reply_len: 0,
            is_stalled: false,
            checks_left: CHECKS_LEFT,
            begun_at: now,
            is_noticed: false,
        })
    }

    /// Whether the exchange goes on for now, though its client has another callback: as often as it has checks left.
    pub(crate) fn use_check(&mut self) -> bool
        ensures { self.new ≡ self.old }
    {
        if self.checks_left == 0 {
            return false;
        }
        self.checks_left -= 1;
        true
    }

    /// Whether notice is to be taken now that there is no reply yet: once, after five seconds.
    pub(crate) fn use_notice(&mut self, now: Duration) -> bool
        ensures { self.new ≡ self.old }
    {
        if self.is_noticed || now.saturating_sub(self.begun_at) < Duration::from_secs(NOTICE_SECS) {
            return false;
        }
        self.is_noticed = true;
        true
    }

    /// Writes and reads what can be written and read at once.
    pub(crate) fn advance<D: Network>(&mut self, client: u32, net: &mut D) -> Progress
        ensures comes { (talks : List Talk)
            × GoesOnBy D.carries client net.old self.old talks net.new self.new
            × HasCome self.new talks result }
        ensures stalled { IsTrue self.new.is_stalled ↔ (result ≡ progresses.Stalled) }
    {
        let progress = self.progress(client, net);
        self.is_stalled = progress == Progress::Stalled;
        progress
    }

    /// Whether the exchange has to go on in the next look, whatever the connection tells.
    pub(crate) fn is_stalled(&self) -> bool
        ensures { result ≡ self.now.is_stalled }
    {
        self.is_stalled
    }

    fn progress<D: Network>(&mut self, client: u32, net: &mut D) -> Progress
        ensures { (talks : List Talk)
            × GoesOnBy D.carries client net.old self.old talks net.new self.new
            × HasCome self.new talks result }
    {
        let sent = self.send(client, net);
        let heard = self.receive(client, net);
        let verdict = self.verdict();
        progress_by(verdict, sent, heard)
    }

    // What the bytes that came in say.
    fn verdict(&self) -> Verdict
        ensures { IsVerdict self.now.is_compound self.now.xid self.now.reply result }
    {
        let reply = &self.place[..self.reply_len];
        judge(self.alloc, reply, self.xid, self.is_compound)
    }

    // Writes what is left of the call.
    fn send<D: Network>(&mut self, client: u32, net: &mut D) -> Flow
        ensures { (talks : List Talk)
            × GoesOnBy D.carries client net.old self.old talks net.new self.new
            × SaysOut talks result }
    {
        'tries: for _ in 0..TRIES {
            let flow = self.write_once(client, net);
            if flow != Flow::Open {
                return flow;
            }
        }
        Flow::Open
    }

    // What is left of the call.
    fn unsent(&self) -> &[u8]
        ensures { result.now ≡ self.now.unsent }
    {
        &self.call[self.sent_len..]
    }

    // So many bytes of what was left have gone out.
    fn pass(&mut self, count: usize)
        requires { count ≤ length self.old.unsent }
        ensures { self.new ≡ record self.old { unsent = drop count self.old.unsent } }
    {
        self.sent_len += count;
    }

    // Makes one write.
    fn write_once<D: Network>(&mut self, client: u32, net: &mut D) -> Flow
        ensures { (talks : List Talk)
            × GoesOnBy D.carries client net.old self.old talks net.new self.new
            × SaysOut talks result }
    {
        let unsent = self.unsent();
        if unsent.is_empty() {
            return Flow::Over;
        }
        match net.write(client, unsent) {
            Moved::Bytes(count) => {
                self.pass(count);
                Flow::Open
            }
            Moved::Blocked => Flow::Blocked,
            Moved::Broken(fault) => Flow::Broken(fault),
        }
    }

    // Reads what has come, as far as there is a place for it.
    fn receive<D: Network>(&mut self, client: u32, net: &mut D) -> Flow
        ensures { (talks : List Talk)
            × GoesOnBy D.carries client net.old self.old talks net.new self.new
            × SaysIn talks self.new.reply result }
    {
        'tries: for _ in 0..TRIES {
            let flow = self.read_once(client, net);
            if flow != Flow::Open {
                return flow;
            }
        }
        Flow::Open
    }

    // Makes one read.
    fn read_once<D: Network>(&mut self, client: u32, net: &mut D) -> Flow
        ensures { (talks : List Talk)
            × GoesOnBy D.carries client net.old self.old talks net.new self.new
            × SaysIn talks self.new.reply result }
    {
        if self.is_reply_too_long() {
            return Flow::Over;
        }
        match read_behind(client, net, &mut self.place, self.reply_len) {
            Moved::Bytes(count) => {
                self.reply_len += count;
                Flow::Open
            }
            Moved::Blocked => Flow::Blocked,
            Moved::Broken(fault) => Flow::Broken(fault),
        }
    }

    // Whether as many bytes came as there is a place for, or the first fragment is longer than that.
    fn is_reply_too_long(&self) -> bool
        ensures { IsTrue result ↔ IsTooLong self.now.reply }
    {
        self.reply_len == self.place.len() || is_fragment_too_long(&self.place[..self.reply_len])
    }
}

// Whether the header of the fragment with which these bytes begin, if it is whole, tells of more bytes than are read.
fn is_fragment_too_long(bytes: &[u8]) -> bool
    ensures { IsTrue result ↔ HasLongFragment bytes.now }
{
    let Some(header) = bytes.first_chunk::<4>() else {
        return false;
    };
    (u32::from_be_bytes(*header) & FRAGMENT_LEN) as usize > PLACE_LEN
}

// Reads to the place after the bytes that are there already.
fn read_behind<D: Network>(client: u32, net: &mut D, place: &mut Vec<u8>, start: usize) -> Moved
    requires { start ≤ length place.old.items }
    ensures within { MovesWithin (length (drop start place.new.items)) result }
    ensures kept { take start place.new.items ≡ take start place.old.items }
    ensures len { length place.new.items ≡ length place.old.items }
    ensures carries { D.carries net.old (hearing client (drop start place.new.items) result) net.new }
{
    net.read(client, &mut place[start..])
}

// How far an exchange is, by what came in and by the flows of what goes out and comes in.
fn progress_by(verdict: Verdict, sent: Flow, heard: Flow) -> Progress
    ensures { ComesTo verdict sent heard result }
{
    match verdict {
        Verdict::Reply(answer) => Progress::Ended(answer),
        Verdict::Unfinished => progress_without_reply(sent, heard),
        Verdict::Memory => Progress::Stalled,
    }
}

// How far an exchange without a reply is. If as many bytes came as there is a place for, no reply is waited for.
fn progress_without_reply(sent: Flow, heard: Flow) -> Progress
    ensures { ComesTo verdicts.Unfinished sent heard result }
{
    if let Flow::Broken(fault) = sent {
        return Progress::Ended(Err(fault));
    }
    match heard {
        Flow::Broken(fault) => Progress::Ended(Err(fault)),
        Flow::Over => Progress::Ended(Err(Fault::TooLong)),
        Flow::Open => Progress::Stalled,
        Flow::Blocked if sent == Flow::Open => Progress::Stalled,
        Flow::Blocked => Progress::UnderWay,
    }
}

// What these bytes say to the callback with this xid.
fn judge(alloc: Global, bytes: &[u8], xid: u32, is_compound: bool) -> Verdict
    requires { length bytes.now ≤ 2 ^ 40 }
    ensures { IsVerdict is_compound xid bytes.now result }
{
    match first_record(alloc, bytes) {
        Ok(Some(message)) => {
            one_split();
            Verdict::Reply(read_answer(message.as_slice(), xid, is_compound))
        }
        Ok(None) => Verdict::Unfinished,
        Err(_) => Verdict::Memory,
    }
}

// The first record of these bytes, if it is whole. It fails only if memory is refused.
fn first_record(alloc: Global, bytes: &[u8]) -> Result<Option<Vec<u8>>, AllocError>
    requires { length bytes.now ≤ 2 ^ 40 }
    ensures some { IfOk result
        (λ found. IfSome found (λ message. HasReply bytes.now message.items)) }
    ensures none { IfOk result (λ found. IfNone found (HasNoReply bytes.now)) }
{
    one_split();
    let mut records = Records::new(alloc);
    match records.feed(bytes) {
        Ok(()) => Ok(records.next()),
        // The records before that which is too long were taken.
        Err(RecordError::TooLong) => Ok(records.next()),
        Err(RecordError::Memory) => Err(AllocError),
    }
}
