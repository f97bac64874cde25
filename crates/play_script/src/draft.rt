// What is known of a script after some of its lines.
ghost use Rattle.std.specs.Prelude.{◌≡◌, ◌<◌, ◌^◌, ◌+◌, [], map, Option};
ghost use Rattle.trace_format.specs.Outcomes.{Gives};
ghost use Rattle.play_script.specs.Before.{known_of};
ghost use Rattle.play_script.specs.Reading as reading;

use crate::forms::{shape_in, step_in};
use crate::script::PlayScript;
use crate::words::{Stage, Word, word_of};
use gate_core::{MOST_PASSES, Step};
use line_text::split_into;
use spie_base::{List, PageShape, RouterId};
use std::alloc::Global;
use std::marker::Model;
use trace_format::{MOST_LINE_BYTES, Stop, WhyRefused, number};

const MOST_STEPS: usize = 100_000;

// What stands for the second line until it is read.
const NO_SHAPE: PageShape = PageShape {
    k: 1,
    n: 6,
    base: 0,
    router: RouterId { number: 0 },
};

/// What is known of a script after some of its lines. After a `Stop` it is of no more use.
#[derive(Drop)]
pub struct Draft {
    stage: Stage,
    read: u64,
    passes: u32,
    shape: PageShape,
    // of a page
    positions: u32,
    steps: Vec<Step>,
}

impl Model for Draft {
    ghost use Rattle.play_script.specs.Before.{Known};

    ghost Value = { Known };

    ghost view = { λ d. record { stage = d.stage; read = d.read; passes = d.passes; shape = d.shape; positions = d.positions; steps = d.steps.items } };
}

impl Draft {
    /// Before the first line.
    pub fn new(alloc: Global) -> Draft
        ensures { result ≡ known_of [] }
    {
        Draft {
            stage: Stage::Version,
            read: 0,
            passes: 1,
            shape: NO_SHAPE,
            positions: 64,
            steps: Vec::new(alloc),
        }
    }

    /// How far the script is.
    pub fn stage(&self) -> Stage
        ensures { result ≡ self.now.stage }
    {
        self.stage
    }

    /// The number of the next line.
    pub fn next_line(&self) -> u64
        requires { self.now.read < 2 ^ 41 }
        ensures { result ≡ self.now.read + 1 }
    {
        self.read + 1
    }

    /// The script, where all its lines were read.
    pub fn into_script(self) -> PlayScript
        ensures { result ≡ reading.script_in self }
    {
        PlayScript {
            shape: self.shape,
            passes: self.passes,
            steps: List::of(self.steps),
        }
    }

    /// Reads one line. `found` is room for its fields, of any content.
    #[tactic(auto, unfolding(crate::specs::Reading::read_line, crate::specs::Reading::line_at))]
    pub fn read_line<'a>(&mut self, found: &mut Vec<&'a [u8]>, text: &'a [u8]) -> Result<(), Stop>
        requires { self.old.read < 2 ^ 40 }
        ensures { Gives (λ _. self.new) result (reading.read_line self.old text.now) }
    {
        if text.len() > MOST_LINE_BYTES {
            return Err(Stop::Rule(WhyRefused::Length));
        }
        split_into(found, text)?;
        match self.stage {
            Stage::Version => self.version_line(found),
            Stage::Core => self.core_line(found),
            Stage::Steps => self.step_line(found),
            Stage::Over => Err(Stop::Rule(WhyRefused::After)),
        }
    }

    #[tactic(auto, unfolding(crate::specs::Reading::version_line))]
    fn version_line(&mut self, found: &[&[u8]]) -> Result<(), Stop>
        requires { self.old.read < 2 ^ 40 }
        ensures { Gives (λ _. self.new) result (reading.version_line self.old (map (λ f. f.now) found.now)) }
    {
        match found {
            [word, rest @ ..] if *word == b"spie-play".as_slice() => self.version_rest(rest),
            _ => Err(Stop::Rule(WhyRefused::Word)),
        }
    }

    #[tactic(auto, unfolding(crate::specs::Reading::version_rest, crate::specs::Reading::grown))]
    fn version_rest(&mut self, rest: &[&[u8]]) -> Result<(), Stop>
        requires { self.old.read < 2 ^ 40 }
        ensures { Gives (λ _. self.new) result (reading.version_rest self.old (map (λ f. f.now) rest.now)) }
    {
        let [version] = rest else {
            return Err(Stop::Rule(WhyRefused::Fields));
        };
        if *version != b"1".as_slice() {
            return Err(Stop::Rule(WhyRefused::Field));
        }
        self.stage = Stage::Core;
        self.read += 1;
        Ok(())
    }

    #[tactic(auto, unfolding(crate::specs::Reading::core_line))]
    fn core_line(&mut self, found: &[&[u8]]) -> Result<(), Stop>
        requires { self.old.read < 2 ^ 40 }
        ensures { Gives (λ _. self.new) result (reading.core_line self.old (map (λ f. f.now) found.now)) }
    {
        match found {
            [word, rest @ ..] if *word == b"core".as_slice() => self.core_rest(rest),
            _ => Err(Stop::Rule(WhyRefused::Word)),
        }
    }

    #[tactic(auto, unfolding(crate::specs::Reading::core_rest))]
    fn core_rest(&mut self, rest: &[&[u8]]) -> Result<(), Stop>
        requires { self.old.read < 2 ^ 40 }
        ensures { Gives (λ _. self.new) result (reading.core_rest self.old (map (λ f. f.now) rest.now)) }
    {
        match rest {
            [passes, k, n, base] => self.core_fields(passes, k, n, base),
            _ => Err(Stop::Rule(WhyRefused::Fields)),
        }
    }

    #[tactic(auto, unfolding(crate::specs::Reading::core_fields, crate::specs::Reading::grown))]
    fn core_fields(&mut self, passes: &[u8], k: &[u8], n: &[u8], base: &[u8]) -> Result<(), Stop>
        requires { self.old.read < 2 ^ 40 }
        ensures { Gives (λ _. self.new) result (reading.core_fields self.old passes.now k.now n.now base.now) }
    {
        let passes = number(passes, 1, u64::from(MOST_PASSES))? as u32;
        let shape = shape_in(k, n, base)?;
        self.stage = Stage::Steps;
        self.read += 1;
        self.passes = passes;
        self.shape = shape;
        self.positions = 1 << shape.n;
        Ok(())
    }

    #[tactic(auto, unfolding(crate::specs::Reading::step_line, crate::specs::Reading::by_word))]
    fn step_line(&mut self, found: &[&[u8]]) -> Result<(), Stop>
        requires { self.old.read < 2 ^ 40 }
        ensures { Gives (λ _. self.new) result (reading.step_line self.old (map (λ f. f.now) found.now)) }
    {
        match found {
            [word] => self.end_line(word),
            [who, word, rest @ ..] => self.by_word(who, word_of(word), rest),
            _ => Err(Stop::Rule(WhyRefused::Word)),
        }
    }

    #[tactic(auto, unfolding(crate::specs::Reading::end_line, crate::specs::Reading::grown))]
    fn end_line(&mut self, word: &[u8]) -> Result<(), Stop>
        requires { self.old.read < 2 ^ 40 }
        ensures { Gives (λ _. self.new) result (reading.end_line self.old word.now) }
    {
        if word != b"end".as_slice() {
            return Err(Stop::Rule(WhyRefused::Word));
        }
        self.stage = Stage::Over;
        self.read += 1;
        Ok(())
    }

    #[tactic(auto, unfolding(crate::specs::Reading::by_word))]
    fn by_word(&mut self, who: &[u8], word: Option<Word>, rest: &[&[u8]]) -> Result<(), Stop>
        requires { self.old.read < 2 ^ 40 }
        ensures { Gives (λ _. self.new) result (reading.by_word self.old who.now word (map (λ f. f.now) rest.now)) }
    {
        let Some(word) = word else {
            return Err(Stop::Rule(WhyRefused::Word));
        };
        let step = step_in(who, word, rest, self.passes, self.positions)?;
        self.push(step)
    }

    #[tactic(auto, unfolding(crate::specs::Reading::pushed, crate::specs::Reading::grown))]
    fn push(&mut self, step: Step) -> Result<(), Stop>
        requires { self.old.read < 2 ^ 40 }
        ensures { Gives (λ _. self.new) result (reading.pushed self.old step) }
    {
        if self.steps.len() >= MOST_STEPS {
            return Err(Stop::Rule(WhyRefused::TooMany));
        }
        self.steps.push(step)?;
        self.stage = Stage::Steps;
        self.read += 1;
        Ok(())
    }
}
