//! A link in memory, which gives the replies that it is told and fails where it is told to.
ghost use Rattle.std.specs.Prelude.{◌≡◌, ◌≤◌, ◌<◌, ℕ, true, length, IsTrue, [], All, IfOk, Ok, None, option_map};
ghost use Rattle.edge_outside.specs.Link.{Keeps};
ghost use Rattle.edge_outside.specs.MemLink.{is_among, IsAmong, polled, waited, lowered, reply_to, StartsInMemory, PollsInMemory, WaitsInMemory, ChoosesInMemory, left_of, without};

use crate::plan::Plan;
use crate::{IoFault, Link};
use std::alloc::{AllocError, Global};
use std::marker::Model;

/// What a backend answers: these bytes, which are there after so many polls that found nothing yet.
#[derive(Drop)]
pub struct MemReply {
    pub bytes: Vec<u8>,
    pub polls: u64,
}

/// A link in memory. The k-th start is answered by the k-th reply, and its ticket is k; a start past the last reply fails.
#[derive(Drop)]
pub struct MemLink {
    replies: Vec<MemReply>,
    started: usize,
    tickets: Vec<u64>,
    plan: Plan,
    faults: u64,
    unready: u64,
}

impl Model for MemLink {
    ghost use Rattle.std.specs.Prelude.{length, ◌≤◌, ◌<◌, All};
    ghost use Rattle.edge_outside.specs.MemLink.{LinkInMemory};

    ghost Value = { LinkInMemory };

    ghost invariant = { λ l. (l.started ≤ length l.replies.items) × All (λ ticket. (0 < ticket) × (ticket ≤ l.started)) l.tickets.items };

    ghost view = { λ l. record { content = record { replies = l.replies.items; started = l.started; tickets = l.tickets.items; calls = l.plan }; faults = l.faults; unready = l.unready } };
}

impl MemLink {
    /// Gives these replies. The calls with the numbers in `fails` fail, counted from 1 over starts, polls and waits.
    pub fn new(alloc: Global, replies: Vec<MemReply>, fails: Vec<u64>) -> Self
        ensures replies { result.content.replies ≡ replies.items }
        ensures started { result.content.started ≡ 0 }
        ensures tickets { result.content.tickets ≡ [] }
        ensures fails { result.content.calls.fails ≡ fails.items }
        ensures made { result.content.calls.made ≡ 0 }
        ensures faults { result.faults ≡ 0 }
        ensures unready { result.unready ≡ 0 }
    {
        MemLink {
            replies,
            started: 0,
            tickets: Vec::new(alloc),
            plan: Plan::new(fails),
            faults: 0,
            unready: 0,
        }
    }
}

/// The ticket isn't open any more; the others are.
#[tactic(auto, using(crate::proofs::Tickets::kept, crate::proofs::Tickets::left))]
fn take(tickets: &mut Vec<u64>, ticket: u64)
    ensures after { tickets.new.items ≡ without ticket tickets.old.items }
    ensures kept { (n : ℕ) → All (λ other. (0 < other) × (other ≤ n)) tickets.old.items → All (λ other. (0 < other) × (other ≤ n)) tickets.new.items }
    ensures left { Keeps (IsAmong tickets.old.items) ticket true (IsAmong tickets.new.items) }
{
    tickets.retain(|other| *other != ticket);
}

/// What a poll of a ticket finds.
fn polled(
    alloc: Global,
    replies: &mut Vec<MemReply>,
    ticket: u64,
) -> Result<Option<Vec<u8>>, AllocError>
    requires some { 0 < ticket }
    requires within { ticket ≤ length replies.old.items }
    ensures answer { IfOk result (λ found. Ok (option_map (λ bytes. bytes.items) found) ≡ polled (reply_to replies.old.items ticket)) }
    ensures none { result ≡ Ok None → replies.new.items ≡ lowered (reply_to replies.old.items ticket) replies.old.items ticket }
    ensures same { (result ≡ Ok None → ⊥) → replies.new.items ≡ replies.old.items }
    ensures len { length replies.new.items ≡ length replies.old.items }
{
    let reply = &mut replies[(ticket - 1) as usize];
    if reply.polls > 0 {
        reply.polls -= 1;
        return Ok(None);
    }
    Ok(Some(reply.bytes.to_vec(alloc)?))
}

/// The bytes of a ticket's reply.
fn waited(alloc: Global, replies: &[MemReply], ticket: u64) -> Result<Vec<u8>, AllocError>
    requires some { 0 < ticket }
    requires within { ticket ≤ length replies.now }
    ensures { IfOk result (λ bytes. Ok bytes.items ≡ waited (reply_to replies.now ticket)) }
{
    replies[(ticket - 1) as usize].bytes.to_vec(alloc)
}

/// How many polls of a ticket find nothing yet.
fn left_of(replies: &[MemReply], ticket: u64) -> u64
    requires some { 0 < ticket }
    requires within { ticket ≤ length replies.now }
    ensures { result ≡ left_of replies.now ticket }
{
    replies[(ticket - 1) as usize].polls
}

/// The place of the ticket with the fewest polls left, the first among equals.
fn first_ready(replies: &[MemReply], tickets: &[u64]) -> usize
    requires some { 0 < length tickets.now }
    requires within { All (λ ticket. (0 < ticket) × (ticket ≤ length replies.now)) tickets.now }
    ensures { ChoosesInMemory replies.now tickets.now result }
{
    let mut best = 0;
    let mut at = 1;
    while at < tickets.len() {
        if left_of(replies, tickets[at]) < left_of(replies, tickets[best]) {
            best = at;
        }
        at += 1;
    }
    best
}

impl Link for MemLink {
    ghost starts = { λ before _ _ answer after. StartsInMemory before answer after };

    ghost polls = { PollsInMemory };

    ghost waits = { WaitsInMemory };

    ghost chooses = { λ before tickets answer after. ChoosesInMemory before.content.replies tickets answer × (after ≡ before) };

    ghost faults = { λ l. l.faults };

    ghost unready = { λ l. l.unready };

    ghost is_open = { λ l ticket. IsAmong l.content.tickets ticket };

    fn start(&mut self, _alloc: Global, _address: &str, _request: &[u8]) -> Result<u64, IoFault> {
        let faults = self.faults;
        let fails = self.plan.fails_next();
        if self.started == self.replies.len() {
            self.faults = faults.saturating_add(1);
            return Err(IoFault::Failed);
        }
        self.started += 1;
        if fails {
            self.faults = faults.saturating_add(1);
            return Err(IoFault::Failed);
        }
        let ticket = self.started as u64;
        self.tickets.push(ticket)?;
        Ok(ticket)
    }

    fn poll(&mut self, alloc: Global, ticket: u64) -> Result<Option<Vec<u8>>, IoFault> {
        let faults = self.faults;
        let unready = self.unready;
        if self.plan.fails_next() {
            take(&mut self.tickets, ticket);
            self.faults = faults.saturating_add(1);
            return Err(IoFault::Failed);
        }
        match polled(alloc, &mut self.replies, ticket)? {
            Some(bytes) => {
                take(&mut self.tickets, ticket);
                Ok(Some(bytes))
            }
            None => {
                self.unready = unready.saturating_add(1);
                Ok(None)
            }
        }
    }

    fn wait(&mut self, alloc: Global, ticket: u64) -> Result<Vec<u8>, IoFault> {
        let faults = self.faults;
        if self.plan.fails_next() {
            take(&mut self.tickets, ticket);
            self.faults = faults.saturating_add(1);
            return Err(IoFault::Failed);
        }
        let bytes = waited(alloc, &self.replies, ticket)?;
        take(&mut self.tickets, ticket);
        Ok(bytes)
    }

    fn ready(&mut self, tickets: &[u64]) -> usize {
        first_ready(&self.replies, tickets)
    }
}
