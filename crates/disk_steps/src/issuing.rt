// Steps on what issues commands: a broker, or the half of one.
ghost use Rattle.std.specs.Prelude.{◌≡◌, [], IfOk};
ghost use Rattle.broker_core.specs.Broker.{pending_of};

use crate::refusals;
use broker_core::{Broker, Issuer, OpenFailure, Ticket};
use case_runner::{CommandRange, StepReply, TextBuffer, Words, read_order};
use sector_disk::Disk;
use std::alloc::Global;
use table_steps::{retaken_step, table_step};

/// Opens the broker of a disk. Where that is refused, the disk comes back with the answer.
pub fn open_broker<D: Disk>(
    alloc: Global,
    disk: D,
    answer: &mut TextBuffer,
) -> Result<Broker<D>, (D, StepReply)>
    ensures { IfOk result (λ broker. pending_of broker ≡ []) }
{
    match Broker::open(alloc, disk) {
        Ok(broker) => Ok(broker),
        Err(OpenFailure { cause, disk }) => Err((disk, refusals::open(cause, answer))),
    }
}

/// Keeps a ticket: its number.
pub fn keep(tickets: &mut Vec<Ticket>, ticket: Ticket) -> StepReply {
    let number = ticket.number();
    match tickets.push(ticket) {
        Ok(()) => StepReply::Number(number),
        Err(_) => StepReply::NoMemory,
    }
}

fn issue_one<I: Issuer>(
    alloc: Global,
    issuer: &mut I,
    tickets: &mut Vec<Ticket>,
    order: CommandRange,
    event: u64,
) -> StepReply {
    let command = match order.command(alloc, event) {
        Ok(command) => command,
        Err(reply) => return reply,
    };
    match issuer.issue(command) {
        Ok(ticket) => keep(tickets, ticket),
        Err(why) => StepReply::Refused(refusals::issue(why)),
    }
}

// Issues a command for each event of a range: the last number, or the first refusal.
fn issue<I: Issuer>(
    alloc: Global,
    issuer: &mut I,
    tickets: &mut Vec<Ticket>,
    word: &str,
    words: &mut Words,
) -> StepReply {
    let order = read_order(word, words);
    if words.are_bad() {
        return StepReply::Unreadable;
    }
    let mut reply = StepReply::Done;
    for event in order.first..=order.last {
        reply = issue_one(alloc, issuer, tickets, order, event);
        if !matches!(reply, StepReply::Number(_)) {
            break;
        }
    }
    reply
}

// Takes the first ticket with this number.
fn take_ticket(tickets: &mut Vec<Ticket>, number: u64) -> Option<Ticket> {
    let index = tickets.iter().position(|ticket| ticket.number() == number)?;
    Some(tickets.remove(index))
}

// `N by M`: the receipt of the ticket with number N, which is used up, where M is durable. Else the ticket is kept.
fn settle(tickets: &mut Vec<Ticket>, words: &mut Words, answer: &mut TextBuffer) -> StepReply {
    let number = words.number();
    words.expect("by");
    let durable = words.number();
    if words.are_bad() {
        return StepReply::Unreadable;
    }
    let Some(ticket) = take_ticket(tickets, number) else {
        return StepReply::Unreadable;
    };
    match ticket.settled_by(durable) {
        Ok(receipt) => {
            answer.add_with("receipt ", receipt.number());
            StepReply::Told
        }
        Err(ticket) => match tickets.push(ticket) {
            Ok(()) => StepReply::Refused("not settled"),
            Err(_) => StepReply::NoMemory,
        },
    }
}

/// What an issuer answers to a step. The tickets of what it issues are kept.
pub fn issuer_step<I: Issuer>(
    alloc: Global,
    issuer: &mut I,
    tickets: &mut Vec<Ticket>,
    word: &str,
    words: &mut Words,
    answer: &mut TextBuffer,
) -> StepReply {
    match word {
        "ticket" => keep(tickets, issuer.ticket()),
        "settled" => settle(tickets, words, answer),
        "issued" => StepReply::Number(issuer.issued()),
        "durable" => StepReply::Number(issuer.durable().number()),
        "retaken" => retaken_step(alloc, issuer.table(), words, answer),
        _ => {
            let reply = table_step(alloc, issuer.table(), word, words, answer);
            if reply.is_no_step() {
                return issue(alloc, issuer, tickets, word, words);
            }
            reply
        }
    }
}

/// What an open broker answers to a step. The tickets of what it issues are kept.
pub fn broker_step<D: Disk>(
    alloc: Global,
    broker: &mut Broker<D>,
    tickets: &mut Vec<Ticket>,
    word: &str,
    words: &mut Words,
    answer: &mut TextBuffer,
) -> StepReply {
    if word != "commit" {
        return issuer_step(alloc, broker, tickets, word, words, answer);
    }
    match broker.commit() {
        Ok(durable) => StepReply::Number(durable.number()),
        Err(why) => StepReply::Refused(refusals::commit(why)),
    }
}
