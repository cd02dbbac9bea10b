//! One connection that has a seat: how long it may be silent, who is told of it, and what ends it.

use crate::connection::{Answered, answer};
use crate::house::House;
use canvas_doors::{
    Call, Ending, Events, Lapse, Parting, Settles, Stream, Timely, WriteTwo, set_up,
};
use canvas_look::Board;
use canvas_session::Cause;
use std::cell::Cell;
use std::io;
use std::io::{Read, Write};
use std::sync::Wait;
use std::thread::Threads;
use std::time::Clock;

/// A gate whose refusal, or whose wish to end, begins the end of the server.
#[derive(Drop)]
struct Watch<'a, G: Settles> {
    gate: &'a G,
    ending: &'a Ending,
    seat: usize,
}

impl<G: Settles> Settles for Watch<'_, G> {
    ghost settled = { λ watch n. G.settled watch.gate.now n };

    fn settle<R: Wait>(&self, rt: &R, put_in: u64) -> io::Result<()> {
        let settled = self.gate.settle(rt, put_in);
        if settled.is_err() {
            self.ending.begin(rt, Call::Unsettled);
        } else if self.gate.has_ended(rt) {
            self.ending.begin(rt, Call::Asked);
        }
        if self.gate.is_lost(self.seat) {
            return Err(io::Error::other("the session is lost"));
        }
        settled
    }

    fn has_ended<R: Wait>(&self, rt: &R) -> bool {
        self.gate.has_ended(rt)
    }
}

/// What a client sends. It ends where the server does.
#[derive(Drop)]
struct Input<'c, 'e, H: Clock> {
    client: Timely<'c, H>,
    ending: &'e Ending,
}

impl<H: Clock> Read for Input<'_, '_, H> {
    fn read(&mut self, bytes: &mut [u8]) -> io::Result<usize> {
        if self.ending.has_begun() {
            return Ok(0);
        }
        self.client.read(bytes)
    }
}

/// What a client is sent. Each piece is told of.
#[derive(Drop)]
struct Output<'s, 'e, E: Events> {
    stream: &'s Stream,
    events: &'e E,
}

impl<E: Events> Write for Output<'_, '_, E> {
    fn write(&mut self, bytes: &[u8]) -> io::Result<usize> {
        let mut stream = self.stream;
        let sent = stream.write(bytes)?;
        self.events.sent(sent);
        Ok(sent)
    }

    fn flush(&mut self) -> io::Result<()> {
        Ok(())
    }
}

impl<E: Events> WriteTwo for Output<'_, '_, E> {
    fn write_two(&mut self, first: &[u8], second: &[u8]) -> io::Result<usize> {
        let mut stream = self.stream;
        let sent = stream.write_two(first, second)?;
        self.events.sent(sent);
        Ok(sent)
    }
}

/// Answers a client until it has sent all or the server ends, and says whether more may still come.
/// Where the server has ended before, nothing is answered.
pub fn answer_visit<H: Threads + Wait + Clock + Sync, B: Board, G: Settles, E: Events>(
    rt: &H,
    house: &House<B, G, E>,
    board: &mut B,
    seat: usize,
    stream: &Stream,
) -> bool {
    if !house.ending.enter(rt, seat, stream) {
        return false;
    }
    set_up(stream, house.idle);
    house.events.began(seat);
    let parting = answer_stream(rt, house, board, seat, stream);
    house.events.ended(seat, &parting);
    house.ending.leave(rt, seat);
    house.ending.has_begun()
        || matches!(
            parting,
            Parting::Foreign | Parting::Cut(Cause::LineTooLong | Cause::TooManyRequests)
        )
}

// Answers a client, and says how that ended.
fn answer_stream<'x, H: Threads + Wait + Clock + Sync, B: Board, G: Settles, E: Events>(
    rt: &'x H,
    house: &House<B, G, E>,
    board: &mut B,
    seat: usize,
    stream: &'x Stream,
) -> Parting {
    let lapse = Cell::new(None);
    let gate = Watch {
        gate: house.gate,
        ending: house.ending,
        seat,
    };
    let input = Input {
        client: Timely::lines(rt, stream, house.idle, &lapse),
        ending: house.ending,
    };
    let output = Output {
        stream,
        events: house.events,
    };
    let (alloc, workers) = (house.alloc, &house.workers);
    let (_, answered) = answer(
        rt,
        alloc,
        board,
        workers,
        &gate,
        house.events,
        input,
        output,
    );
    match answered {
        None => Parting::Unsent,
        Some(Answered::Foreign) => Parting::Foreign,
        Some(Answered::Session(Ok(_))) => Parting::Finished,
        Some(Answered::Session(Err(fault))) => parting_of(fault.cause, lapse.get()),
        Some(Answered::Unread) => parting_of(Cause::ReadFault, lapse.get()),
    }
}

// How a session ended that did not end with its input.
fn parting_of(cause: Cause, lapse: Option<Lapse>) -> Parting {
    match (cause, lapse) {
        (Cause::ReadFault, Some(Lapse::Idle)) => Parting::Idle,
        (Cause::ReadFault, Some(Lapse::Slow)) => Parting::Slow,
        _ => Parting::Cut(cause),
    }
}
