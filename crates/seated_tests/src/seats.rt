// Two seats at one desk, call after call, with the bytes of the replies.
ghost use Rattle.std.specs.Prelude.{◌≡◌, ◌+◌, ◌^◌, IfOk, IfSome};
ghost use Rattle.std.specs.List.{AllByRecursion};
ghost use Rattle.call_form.specs.CallOf.{IsObject};
ghost use Rattle.session_core.specs.Outcomes.{HasSoundParameters};
ghost use Rattle.session_core.specs.Steps.{IsWaiting};
ghost use Rattle.turn_desk.specs.Passes.{IsOf, all_asks};
ghost use Rattle.service_core.specs.Renders.{left_of};
ghost use Rattle.service_desk.specs.Boards.{IsDeskOf};
ghost use Rattle.service_desk.specs.Seats.{IsSameSeat};

use crate::sheets::COUNT;
use call_form::Call;
use link_port::{List, MemSink, Memory};
use service_core::{Rendering, Request, Service};
use service_desk::{Board, Seated};
use session_core::{Session, Turn};
use sheet_form::read;
use std::alloc::Global;
use std::sync::Wait;
use turn_desk::{AskFault, Desk, Entry, Kept, Pass};
use typed_value::Val;

type Whole = Kept<Request>;

const ADD: &str = "{\"method\":\"org.example.count.Add\",\"parameters\":{\"amount\":1}}\0";

const LESS: &str = "{\"method\":\"org.example.count.Add\",\"parameters\":{\"amount\":-1}}\0";

const NOTE: &str =
    "{\"method\":\"org.example.count.Note\",\"parameters\":{\"entry\":{\"name\":\"a\",\"amount\":2},\"tag\":\"t\"}}\0";

const LIST: &str = "{\"method\":\"org.example.count.List\",\"more\":true}\0";

const ECHO: &str = "{\"method\":\"org.example.count.Echo\",\"upgrade\":true}\0";

const PING: &str = "{\"method\":\"org.example.count.Ping\"}\0";

const ONE: &str = "{\"parameters\":{\"total\":1}}\0";

const TWO: &str = "{\"parameters\":{\"total\":2}}\0";

const DONE: &str = "{\"parameters\":{}}\0";

const LISTED: &str =
    "{\"continues\":true,\"parameters\":{\"done\":false,\"entry\":{\"amount\":2,\"name\":\"a\"}}}\0{\"parameters\":{\"done\":true}}\0";

const REFUSED: &str = "{\"error\":\"org.example.count.Negative\",\"parameters\":{\"amount\":-1}}\0";

const NO_RULE: &str =
    "{\"error\":\"org.varlink.service.MethodNotImplemented\",\"parameters\":{\"method\":\"org.example.count.Ping\"}}\0";

/// The service of the count sheet.
fn count_service(alloc: Global) -> Result<Service, Memory> {
    match read(alloc, COUNT.as_bytes()) {
        Ok(sheet) => Service::new(alloc, sheet),
        Err(fault) => {
            drop(fault);
            Err(Memory)
        }
    }
}

/// A session that has read this call and waits for its replies.
fn read_in(alloc: Global, message: &str) -> Option<(Session, Call)>
    ensures waits { IfSome result (λ there. IsWaiting there.0.phase) }
    ensures object { IfSome result (λ there. IsObject there.1.parameters) }
{
    let Ok(mut session) = Session::new(alloc, 1024) else {
        return None;
    };
    session.feed(message.as_bytes());
    match session.next(alloc) {
        Turn::Call(call) => Some((session, call)),
        _ => {
            drop(session);
            None
        }
    }
}

/// Whether these bytes are written for the replies.
fn gives<'x>(alloc: Global, mut session: Session, mut replies: Rendering<'x>, wanted: &str) -> bool
    requires waits { IsWaiting session.phase }
    requires writable { AllByRecursion HasSoundParameters (left_of replies).replies }
{
    let Ok(mut sink) = MemSink::new(alloc, 4096, List::new(alloc), List::new(alloc)) else {
        drop((session, replies));
        return false;
    };
    let given = session.give(alloc, &mut replies, &mut sink);
    let right = given.is_ok() && sink.bytes() == wanted.as_bytes();
    drop((session, replies, sink));
    right
}

/// Whether the call comes to these bytes, or to this refusal.
fn says<'x, R: Wait>(
    rt: &R,
    alloc: Global,
    seated: &mut Seated<'x, Whole>,
    message: &str,
    wanted: Result<&str, AskFault>,
) -> bool
    ensures same { IsSameSeat seated.old seated.new }
    ensures asks { all_asks seated.new.pass ≡ all_asks seated.old.pass }
{
    let Some((session, call)) = read_in(alloc, message) else {
        return false;
    };
    let answer = seated.answer(rt, alloc, &call);
    drop(call);
    match (answer, wanted) {
        (Ok(replies), Ok(text)) => gives(alloc, session, replies, text),
        (Err(fault), Err(other)) => {
            drop(session);
            fault == other
        }
        (answer, _) => {
            drop((session, answer));
            false
        }
    }
}

/// Whether the history has just these entries, told by their passes.
fn is_history(history: &[Entry<Request>], passes: &[u64]) -> bool {
    history.len() == passes.len()
        && history
            .iter()
            .zip(passes)
            .all(|(entry, pass)| entry.pass == *pass)
}

/// Closes the desk by its two passes, and tells whether total and history are these.
fn closes(
    desk: Desk<Board, Whole>,
    mut pass: Pass<Board, Whole>,
    other: Pass<Board, Whole>,
    total: i64,
    passes: &[u64],
) -> bool
    requires pass { IsOf desk pass }
    requires other { IsOf desk other }
    requires all { all_asks pass + all_asks other ≡ 2 ^ 62 }
{
    desk.join(&mut pass, other);
    let (board, ledger) = desk.close(pass);
    let history = ledger.into_list();
    let first = board.registers().values().first();
    let counted = matches!(first, Some(Val::Int(number)) if *number == total);
    let right = counted && is_history(history.as_slice(), passes);
    drop((board, history));
    right
}

/// Seven calls of two seats in turn.
fn answers_in_turn<'x, R: Wait>(
    rt: &R,
    alloc: Global,
    one: &mut Seated<'x, Whole>,
    two: &mut Seated<'x, Whole>,
) -> bool
    ensures one { IsSameSeat one.old one.new }
    ensures two { IsSameSeat two.old two.new }
    ensures asks_one { all_asks one.new.pass ≡ all_asks one.old.pass }
    ensures asks_two { all_asks two.new.pass ≡ all_asks two.old.pass }
{
    let first = says(rt, alloc, one, ADD, Ok(ONE));
    let second = says(rt, alloc, two, ADD, Ok(TWO));
    let noted = says(rt, alloc, two, NOTE, Ok(DONE));
    let listed = says(rt, alloc, one, LIST, Ok(LISTED));
    let refused = says(rt, alloc, two, LESS, Ok(REFUSED));
    let upgraded = says(rt, alloc, one, ECHO, Ok(DONE));
    let none = says(rt, alloc, one, PING, Ok(NO_RULE));
    let answered = first && second && noted && listed && refused && upgraded && none;
    answered && one.made() == 3 && two.made() == 3 && one.number() == 0 && two.number() == 1
}

/// Whether two seats at one desk are answered in turn, and the history is that of their calls.
fn in_turn<R: Wait>(rt: &R, alloc: Global, service: &Service) -> bool {
    let Ok(board) = Board::start(alloc, service) else {
        return false;
    };
    let Ok((desk, mut pass)) = Desk::start(alloc, board, 1 << 62) else {
        return false;
    };
    let other = desk.split(&mut pass, 10);
    let mut one = Seated::new(service, &desk, pass);
    let mut two = Seated::new(service, &desk, other);
    let answered = answers_in_turn(rt, alloc, &mut one, &mut two);
    let pass = one.leave();
    let other = two.leave();
    closes(desk, pass, other, 2, &[0, 1, 1, 0, 1, 0]) && answered
}

#[test]
fn two_seats_are_answered_in_turn(rt: HostRuntime) {
    match count_service(rt.alloc()) {
        Ok(service) => {
            let right = in_turn(&rt, rt.alloc(), &service);
            drop(service);
            assert!(rt; right);
        }
        Err(Memory) => assert!(rt; false),
    }
}

/// Two additions at a desk whose limit is 200, and one by a pass of a single ask that is used up.
fn runs_out<'x, R: Wait>(
    rt: &R,
    alloc: Global,
    one: &mut Seated<'x, Whole>,
    two: &mut Seated<'x, Whole>,
) -> bool
    ensures one { IsSameSeat one.old one.new }
    ensures two { IsSameSeat two.old two.new }
    ensures asks_one { all_asks one.new.pass ≡ all_asks one.old.pass }
    ensures asks_two { all_asks two.new.pass ≡ all_asks two.old.pass }
{
    let first = says(rt, alloc, one, ADD, Ok(ONE));
    let full = says(rt, alloc, one, ADD, Err(AskFault::Full { bytes: 192 }));
    let spent = says(rt, alloc, two, ADD, Err(AskFault::Full { bytes: 192 }));
    let worn = says(rt, alloc, two, ADD, Err(AskFault::Worn));
    let none = says(rt, alloc, two, PING, Ok(NO_RULE));
    first && full && spent && worn && none && one.made() == 1 && two.made() == 0
}

/// Whether a full desk and a worn pass refuse, and put nothing into the history.
fn refuses<R: Wait>(rt: &R, alloc: Global, service: &Service) -> bool {
    let Ok(board) = Board::start(alloc, service) else {
        return false;
    };
    let Ok((desk, mut pass)) = Desk::start(alloc, board, 200) else {
        return false;
    };
    let other = desk.split(&mut pass, 1);
    let mut one = Seated::new(service, &desk, pass);
    let mut two = Seated::new(service, &desk, other);
    let refused = runs_out(rt, alloc, &mut one, &mut two);
    let pass = one.leave();
    let other = two.leave();
    closes(desk, pass, other, 1, &[0]) && refused
}

#[test]
fn a_full_desk_and_a_worn_pass_refuse(rt: HostRuntime) {
    match count_service(rt.alloc()) {
        Ok(service) => {
            let right = refuses(&rt, rt.alloc(), &service);
            drop(service);
            assert!(rt; right);
        }
        Err(Memory) => assert!(rt; false),
    }
}
