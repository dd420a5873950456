//! The messages of a generated campaign, in their order.
ghost use Rattle.std.specs.Prelude.{◌≡◌, ◌+◌, ◌≤◌, [], ◌∷◌, IfOk, IsTrue, MatchBool, OnOk};
ghost use Rattle.rulebook.specs.Histories.Legal.{founding};
ghost use Rattle.drill.specs.Exchanges.{IsAnswered, IsSent};
ghost use Rattle.drill.specs.Figures.{are_numbers, most_topics};
ghost use Rattle.drill.specs.Messages.{IsMessage, callers, rules, run_message as message_of_run};
ghost use Rattle.drill.specs.Plays.{After, AreJudged, IsBeforeLastMessage, IsGraded, IsJudged, IsNumberedTo, IsPlayed, IsRefused, judging_after, most_messages};

use crate::exchanges::send;
use crate::figures::grade_of;
use crate::messages::{
    grade_message, lease_message, open_message, publish_message, run_message, topics_message,
};
use crate::numbers::DrillNumbers;
use book::Book;
use decimal_rank::Memory;
use disk_model::MemoryDisk;
use http_wire::{fronts_stay, one_reading};
use routes::Keys;
use rulebook::entries_are_few;
use std::alloc::Global;

/// Sends the messages of a generated campaign.
#[derive(Drop)]
struct Sender<'a, R> {
    rt: &'a R,
    alloc: Global,
    numbers: &'a DrillNumbers,
    keys: &'a Keys,
}

/// How many messages the assessor sent, and how many leases were accepted.
#[derive(Clone, Copy)]
struct Sent {
    number: u32,
    leases: u32,
}

/// Plays the campaign from its founding to its publication.
pub(crate) fn play<R>(
    rt: &R,
    alloc: Global,
    numbers: &DrillNumbers,
    book: &mut Book<MemoryDisk>,
    keys: &Keys,
) -> Result<(), Memory>
    requires numbers { IsTrue (are_numbers numbers.now) }
    requires keys { keys.now ≡ callers }
    requires founded { book.old.history ≡ founding rules ∷ [] }
    ensures { OnOk result (IsPlayed numbers.now book.new.history) }
{
    let sender = Sender {
        rt,
        alloc,
        numbers,
        keys,
    };
    sender.send(book, topics_message(alloc, numbers)?)?;
    sender.submit_runs(book)?;
    sender.send(book, open_message(alloc)?)?;
    // the requests that were sent are read in one way, and none of them is the assessor's
    fronts_stay();
    one_reading();
    sender.judge_topics(book)?;
    sender.send(book, publish_message(alloc)?)?;
    Ok(())
}

impl<'a, R> Sender<'a, R> {
    /// Sends a message twice. Its answers tell the number of a document where they lease one.
    fn send(&self, book: &mut Book<MemoryDisk>, text: Vec<u8>) -> Result<Option<u32>, Memory>
        requires keys { self.now.keys.now ≡ callers }
        requires message { IsMessage text.items }
        ensures { IfOk result (IsAnswered book.old.history text.items book.new.history) }
    {
        send(self.rt, self.alloc, book, self.keys, text)
    }

    /// Submits each run.
    fn submit_runs(&self, book: &mut Book<MemoryDisk>) -> Result<(), Memory>
        requires numbers { IsTrue (are_numbers self.now.numbers.now) }
        requires keys { self.now.keys.now ≡ callers }
        ensures { OnOk result (After (λ r old new. IsSent old (message_of_run self.now.numbers.now
            r) new) self.now.numbers.now.runs book.old.history book.new.history) }
    {
        for before in 0..self.numbers.runs {
            self.send(book, run_message(self.alloc, self.numbers, before + 1)?)?;
        }
        Ok(())
    }

    /// Leases and grades the documents of each topic.
    fn judge_topics(&self, book: &mut Book<MemoryDisk>) -> Result<(), Memory>
        requires numbers { IsTrue (are_numbers self.now.numbers.now) }
        requires keys { self.now.keys.now ≡ callers }
        requires unused { IsNumberedTo 0 book.old.history }
        ensures { OnOk result (AreJudged self.now.numbers.now book.old.history book.new.history) }
    {
        let mut sent = Sent {
            number: 0,
            leases: 0,
        };
        for before in 0..self.numbers.topics {
            self.judge_topic(before + 1, book, &mut sent)?;
        }
        Ok(())
    }

    /// Leases and grades the documents of a topic, until no lease is accepted. Each accepted lease
    /// is an entry, of which a campaign has no more than so many.
    fn judge_topic(
        &self,
        t: u32,
        book: &mut Book<MemoryDisk>,
        sent: &mut Sent,
    ) -> Result<(), Memory>
        requires keys { self.now.keys.now ≡ callers }
        requires topic { t ≤ most_topics }
        requires counted { IsBeforeLastMessage t (judging_after book.old.history sent.old) }
        ensures judged { OnOk result (IsJudged self.now.numbers.now t
            (judging_after book.old.history sent.old) (judging_after book.new.history sent.new)) }
        ensures counted { OnOk result
            (IsBeforeLastMessage (t + 1) (judging_after book.new.history sent.new)) }
    {
        fronts_stay();
        one_reading();
        entries_are_few();
        'leases: loop {
            book.stands();
            let is_graded = self.judge_next(t, book, sent)?;
            if !is_graded {
                return Ok(());
            }
        }
    }

    /// Asks for a lease on a topic, and grades its document. False is that the lease wasn't
    /// accepted.
    fn judge_next(
        &self,
        t: u32,
        book: &mut Book<MemoryDisk>,
        sent: &mut Sent,
    ) -> Result<bool, Memory>
        requires keys { self.now.keys.now ≡ callers }
        requires topic { t ≤ most_topics }
        requires few { sent.old.number ≤ most_messages }
        requires few_leases { sent.old.leases ≤ most_messages }
        ensures { IfOk result (λ is_graded. MatchBool is_graded (IsGraded self.now.numbers.now t
            (judging_after book.old.history sent.old) (judging_after book.new.history sent.new))
            (IsRefused t (judging_after book.old.history sent.old)
            (judging_after book.new.history sent.new))) }
    {
        let lease = lease_message(self.alloc, t, sent.number + 1)?;
        match self.send(book, lease)? {
            Some(doc) => {
                let grade = grade_of(self.numbers, t, doc);
                let text = grade_message(self.alloc, sent.leases + 1, sent.number + 2, grade)?;
                self.send(book, text)?;
                sent.number += 2;
                sent.leases += 1;
                Ok(true)
            }
            None => {
                sent.number += 1;
                Ok(false)
            }
        }
    }
}
