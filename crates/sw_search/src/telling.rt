//! What is told of a list: its report, or the line of what ended the search.
ghost use Rattle.std.specs.Prelude.{◌≡◌, None, Some, IfOk};
ghost use Rattle.std.specs.Option.{option_copied};
ghost use Rattle.sw_meaning.specs.Report.{class_count};
ghost use Rattle.sw_meaning.specs.Verdict.{Word as Meant, Verdict};
ghost use Rattle.sw_report.specs.Words.{word_of};
ghost use Rattle.sw_verdict.specs.Judgement.{Ends};
ghost use Rattle.sw_search.specs.Searches.{IsTold, HasVerdict, EndsBy};
ghost use Rattle.sw_search.specs.Spaces.{template_of};
ghost use Rattle.sw_search.specs.Phases.{IsFound, ended_of};

use crate::asking::{Ending, safety_line};
use crate::finishing::{Finished, finish_list};
use std::alloc::{AllocError, Global};
use std::sync::Wait;
use std::thread::Threads;
use sw_edge::Gate;
use sw_enumerate::Space;
use sw_logic::Formula;
use sw_meaning::{Protocol, Template};
use sw_report::{ReportError, Word, report_text, status_of, text_over_line};
use sw_verdict::{Judged, SafetyQuery, judge_safety};

/// What is told of a search: a report with the status that it ends with, or the line of what ended it.
#[derive(Drop)]
pub enum Told {
    Report { status: u8, text: String },
    Stopped(String),
}

/// A list that was found, and what it was found with.
#[derive(Clone, Copy)]
pub struct Found<'a> {
    pub protocol: &'a Protocol,
    pub breadth: Option<&'a Space>,
    pub finish: Option<&'a Space>,
    pub workers: u32,
    pub budget: Option<u64>,
    pub list: &'a [Formula],
}

impl Found<'_> {
    /// The template of the list.
    fn template(&self) -> Option<&Template>
        ensures { option_copied result ≡ template_of (option_copied self.now.breadth) }
    {
        match self.breadth {
            Some(space) => Some(space.template()),
            None => None,
        }
    }

    /// How many classes it has.
    fn classes(&self) -> u64
        requires { IsFound self.now.protocol.now (option_copied self.now.breadth) (option_copied self.now.finish) self.now.workers self.now.budget self.now.list.now }
        ensures { result ≡ class_count self.now.protocol.now.signature (template_of (option_copied self.now.breadth)) }
    {
        match self.breadth {
            Some(space) => space.class_count(),
            None => 0,
        }
    }

    /// The report with this word, or that it is too long.
    fn report(&self, alloc: Global, word: Word) -> Result<Told, AllocError>
        requires found { IsFound self.now.protocol.now (option_copied self.now.breadth) (option_copied self.now.finish) self.now.workers self.now.budget self.now.list.now }
        requires word { HasVerdict self.now.protocol.now (template_of (option_copied self.now.finish)) self.now.workers self.now.list.now (word_of word) }
        ensures { IfOk result (IsTold self.now.protocol.now (template_of (option_copied self.now.breadth)) (template_of (option_copied self.now.finish)) self.now.workers self.now.budget) }
    {
        match report_text(
            alloc,
            self.protocol,
            self.template(),
            self.classes(),
            self.list,
            word,
        ) {
            Ok(text) => Ok(Told::Report {
                status: status_of(word),
                text,
            }),
            Err(ReportError::TextOver(bytes)) => {
                let line = text_over_line(alloc, bytes)?;
                Ok(Told::Stopped(line))
            }
            Err(ReportError::Memory) => Err(AllocError),
        }
    }

    /// That a query of safety ended the search so.
    fn stopped(&self, alloc: Global, query: SafetyQuery, ending: Ending) -> Result<Told, AllocError>
        requires found { IsFound self.now.protocol.now (option_copied self.now.breadth) (option_copied self.now.finish) self.now.workers self.now.budget self.now.list.now }
        requires ended { Ends self.now.protocol.now self.now.list.now query (EndsBy self.now.budget (ended_of ending)) }
        ensures { IfOk result (IsTold self.now.protocol.now (template_of (option_copied self.now.breadth)) (template_of (option_copied self.now.finish)) self.now.workers self.now.budget) }
    {
        let line = safety_line(alloc, self.protocol, query, ending)?;
        Ok(Told::Stopped(line))
    }

    /// Goes through the classes of the space, and tells what they show.
    fn finished<H: Threads + Wait + Sync, G: Gate + Sync>(
        &self,
        rt: &H,
        alloc: Global,
        space: &Space,
        gate: &G,
    ) -> Result<Told, AllocError>
        requires found { IsFound self.now.protocol.now (option_copied self.now.breadth) (option_copied self.now.finish) self.now.workers self.now.budget self.now.list.now }
        requires space { option_copied self.now.finish ≡ Some space.now }
        requires open_ { Verdict self.now.protocol.now None self.now.list.now Meant.unsettled }
        ensures { IfOk result (IsTold self.now.protocol.now (template_of (option_copied self.now.breadth)) (template_of (option_copied self.now.finish)) self.now.workers self.now.budget) }
    {
        match finish_list(rt, alloc, self, space, gate)? {
            Finished::Joined(formula) => self.report(alloc, Word::SafeWith(&formula)),
            Finished::Exhausted => self.report(alloc, Word::Exhausted),
            Finished::Stopped(line) => Ok(Told::Stopped(line)),
        }
    }

    /// Tells of a list that leaves safety open.
    fn opened<H: Threads + Wait + Sync, G: Gate + Sync>(
        &self,
        rt: &H,
        alloc: Global,
        gate: &G,
    ) -> Result<Told, AllocError>
        requires found { IsFound self.now.protocol.now (option_copied self.now.breadth) (option_copied self.now.finish) self.now.workers self.now.budget self.now.list.now }
        requires open_ { Verdict self.now.protocol.now None self.now.list.now Meant.unsettled }
        ensures { IfOk result (IsTold self.now.protocol.now (template_of (option_copied self.now.breadth)) (template_of (option_copied self.now.finish)) self.now.workers self.now.budget) }
    {
        match self.finish {
            Some(space) => self.finished(rt, alloc, space, gate),
            None => self.report(alloc, Word::Open),
        }
    }

    /// Asks whether the list shows safety, and tells the report with the word, or what ended that.
    pub fn tell<H: Threads + Wait + Sync, G: Gate + Sync>(
        &self,
        rt: &H,
        alloc: Global,
        gate: &G,
    ) -> Result<Told, AllocError>
        requires found { IsFound self.now.protocol.now (option_copied self.now.breadth) (option_copied self.now.finish) self.now.workers self.now.budget self.now.list.now }
        ensures { IfOk result (IsTold self.now.protocol.now (template_of (option_copied self.now.breadth)) (template_of (option_copied self.now.finish)) self.now.workers self.now.budget) }
    {
        match judge_safety(alloc, self.protocol, self.list, self.budget)? {
            Judged::Violated => self.report(alloc, Word::Violated),
            Judged::Safe => self.report(alloc, Word::Safe),
            Judged::Open => self.opened(rt, alloc, gate),
            Judged::Spent(query, _) => {
                let most = self.budget.unwrap_or(0);
                self.stopped(alloc, query, Ending::Spent(most))
            }
            Judged::TooLarge(query, size) => self.stopped(alloc, query, Ending::TooLarge(size)),
        }
    }
}
