// Steps on an open broker.
use async_core::Table;
use audit_report::explain;
use broker_core::{Broker, Ticket};
use case_runner::{StepReply, TextBuffer, Words, id_of};
use disk_steps::{broker_step, keep, refusals};
use invoke_records::GREATEST_MOMENT;
use sector_disk::Disk;
use std::alloc::Global;

// How many commands are durable after a switch.
fn switch<D: Disk>(broker: &mut Broker<D>) -> StepReply {
    match broker.switch() {
        Ok(durable) => StepReply::Number(durable.number()),
        Err(why) => StepReply::Refused(refusals::commit(why)),
    }
}

// `at MOMENT`
fn resume<D: Disk>(
    broker: &mut Broker<D>,
    tickets: &mut Vec<Ticket>,
    words: &mut Words,
) -> StepReply {
    words.expect("at");
    let now = words.number().min(GREATEST_MOMENT);
    if words.are_bad() {
        return StepReply::Unreadable;
    }
    match broker.resume(now) {
        Ok(Some(ticket)) => keep(tickets, ticket),
        Ok(None) => StepReply::Word("none"),
        Err(why) => StepReply::Refused(refusals::issue(why)),
    }
}

// The receipt of the ticket with this number.
fn redeem<D: Disk>(
    broker: &Broker<D>,
    tickets: &[Ticket],
    number: u64,
    answer: &mut TextBuffer,
) -> StepReply {
    for ticket in tickets {
        if ticket.number() == number {
            let Some(receipt) = broker.redeem(ticket) else {
                return StepReply::NONE;
            };
            answer.add_with("receipt ", receipt.number());
            return StepReply::Told;
        }
    }
    StepReply::Unreadable
}

// `ID`: the line of an event.
fn tell_explanation(
    alloc: Global,
    table: &Table,
    words: &mut Words,
    answer: &mut TextBuffer,
) -> StepReply {
    let id = id_of(words.number());
    match explain(alloc, table, &id) {
        Ok(line) => {
            answer.add(line.as_str());
            StepReply::Told
        }
        Err(_) => StepReply::Refused("out of memory"),
    }
}

/// What an open broker answers to a step.
pub fn whole_broker_step<D: Disk>(
    alloc: Global,
    broker: &mut Broker<D>,
    tickets: &mut Vec<Ticket>,
    word: &str,
    words: &mut Words,
    answer: &mut TextBuffer,
) -> StepReply {
    match word {
        "switch" => switch(broker),
        "resume" => resume(broker, tickets, words),
        "redeem" => redeem(broker, tickets, words.number(), answer),
        "explain" => tell_explanation(alloc, broker.table(), words, answer),
        _ => broker_step(alloc, broker, tickets, word, words, answer),
    }
}
