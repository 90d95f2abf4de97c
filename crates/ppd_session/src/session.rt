ghost use Rattle.std.specs.Prelude.{◌≡◌, None, IfOk, IfErr, OnErr, OnOk};
ghost use Rattle.ppd_flow_past.specs.Pasts.{IsPast};
ghost use Rattle.ppd_session.specs.Keeping.{AreAsked, AreAskedInPart};
ghost use Rattle.ppd_session.specs.Missing.{IsCauseOfSets};
ghost use Rattle.ppd_session.specs.Sessions.{IsSession, IsWhy, blocks_of_line, known_by, new_session, state_of};
ghost use Rattle.ppd_session.specs.Questions.{is_quit};
ghost use Rattle.ppd_session.specs.Texts.{failure_of, races_text, text_of};

use crate::answers::put_answer;
use crate::kept::Kept;
use crate::question::{asked, quits};
use crate::races::put_races;
use crate::reply::{Reply, SessionError};
use crate::words::words_of;
use ppd_ast::{Memory, Seq};
use ppd_flow_past::Past;
use ppd_model::Race;
use ppd_race::races;
use std::alloc::Global;
use std::marker::Model;
use std::thread::Threads;

/// How many replayed blocks a session keeps where nothing else is said.
const USUAL_BLOCKS: u32 = 8;

/// A past with its races, of which questions are answered, and the blocks that were replayed last.
#[derive(Drop)]
pub struct Session<'a> {
    alloc: Global,
    past: Past<'a>,
    races: Seq<Race>,
    kept: Kept,
}

impl<'a> Model for Session<'a> {
    ghost use Rattle.ppd_session.specs.Sessions.{IsSession, SessionState, state_of};

    ghost Value = { SessionState };

    ghost view = { λ s. state_of s.past s.races s.kept };

    ghost invariant = { λ s. IsSession s.past s.races s.kept };
}

fn reply(
    alloc: Global,
    past: &Past,
    races: &[Race],
    kept: &mut Kept,
    line: &[u8],
) -> Result<Reply, SessionError>
    requires { IsSession past.now races.now kept.old }
    ensures text { IfOk result (λ r. r.text ≡ text_of (known_by past.now races.now) line.now) }
    ensures quit { IfOk result (λ r. r.quit ≡ is_quit line.now) }
    ensures told { OnOk result (failure_of (known_by past.now races.now) line.now ≡ None) }
    ensures error { IfErr result (IsWhy (failure_of (known_by past.now races.now) line.now)) }
    ensures kept { OnOk result
        (AreAsked (known_by past.now races.now) (blocks_of_line (state_of past.now races.now kept.old) line.now)
        kept.old kept.new) }
    ensures part { OnErr result
        (AreAskedInPart (known_by past.now races.now)
        (blocks_of_line (state_of past.now races.now kept.old) line.now) kept.old kept.new) }
{
    let words = words_of(alloc, line)?;
    let question = asked(past.program, words.as_slice());
    let mut text = Vec::new(alloc);
    put_answer(alloc, &mut text, past, races, kept, question)?;
    Ok(Reply {
        text: Seq::from_vec(text),
        quit: quits(words.as_slice()),
    })
}

impl<'a> Session<'a> {
    /// Finds the races of a past, and keeps the 8 blocks that were replayed last. `Memory` is want of memory.
    pub fn new(
        rt: &(impl Threads + Sync),
        alloc: Global,
        past: Past<'a>,
    ) -> Result<Session<'a>, Memory>
        requires past { IsPast past }
        requires uncut { past.cut.now ≡ past.logs.now }
        ensures { IfOk result (λ s. s ≡ new_session past.entry 8) }
    {
        Session::cached(rt, alloc, past, USUAL_BLOCKS)
    }

    /// The same with at most so many blocks, 0 for none. No answer depends on how many are kept.
    pub fn cached(
        rt: &(impl Threads + Sync),
        alloc: Global,
        past: Past<'a>,
        blocks: u32,
    ) -> Result<Session<'a>, Memory>
        requires past { IsPast past }
        requires uncut { past.cut.now ≡ past.logs.now }
        ensures { IfOk result (λ s. s ≡ new_session past.entry blocks) }
    {
        let races = races(rt, alloc, past.graph)?;
        let kept = Kept::new(alloc, blocks)?;
        Ok(Session {
            alloc,
            past,
            races,
            kept,
        })
    }

    /// The text of the race list: how many races there are, and a line for each. `Memory` is want of memory.
    pub fn summary_races(&self) -> Result<Vec<u8>, Memory>
        ensures { IfOk result (λ text. text.items ≡ races_text self.now.known.program self.now.known.races) }
    {
        let mut text = Vec::new(self.alloc);
        put_races(&mut text, self.past.program, self.races.as_slice())?;
        Ok(text)
    }

    /// The answer to a command line, without its newline: `races`, `final`, `blocks P`, `open P K`, `why P K J`,
    /// `deps S` or `quit`. In its place stands the first of `? command`, `? races N`, `? process`, `? block`,
    /// `? event` and `? statement` that applies.
    ///
    /// An interval is opened by its replay from its own log, or by a kept block; the edges of an item and a last value
    /// are found by replays of single intervals.
    /// `Diverged` comes exactly where such a replay fails, the first that does, at its entry. `Sets` comes exactly
    /// where none fails and a search misses a write that this entry records: of logs that the index accepts, the entry
    /// ends an internal edge, and its write set has a cell that no event which the replays give of that edge writes.
    /// Neither comes of the logs of a whole run, and after them the session is not asked again. `Memory` is want of
    /// memory: the line can be asked again.
    ///
    /// After an answer each block that the line asked for was put in front of those that are kept, or, if it was not
    /// kept, may be kept now; after an error so were the first of them.
    pub fn answer(&mut self, line: &[u8]) -> Result<Reply, SessionError>
        ensures text { IfOk result (λ r. r.text ≡ text_of self.old.known line.now) }
        ensures quit { IfOk result (λ r. r.quit ≡ is_quit line.now) }
        ensures told { OnOk result (failure_of self.old.known line.now ≡ None) }
        ensures error { IfErr result (IsWhy (failure_of self.old.known line.now)) }
        ensures sets { IsCauseOfSets self.old.known result }
        ensures same { self.new.known ≡ self.old.known }
        ensures lasts { self.new.last_blocks ≡ self.old.last_blocks }
        ensures kept { OnOk result
            (AreAsked self.old.known (blocks_of_line self.old line.now) self.old.kept self.new.kept) }
        ensures part { OnErr result
            (AreAskedInPart self.old.known (blocks_of_line self.old line.now) self.old.kept self.new.kept) }
    {
        reply(
            self.alloc,
            &self.past,
            self.races.as_slice(),
            &mut self.kept,
            line,
        )
    }
}
