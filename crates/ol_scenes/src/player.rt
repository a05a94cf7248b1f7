//! The player: lines in, what they tell out.

use crate::repeats::{Alike, Repeat};
use crate::steps::{Step, parse};
use crate::texts::Texts;
use crate::world::World;
use ol_stage::Trouble;
use std::alloc::{AllocError, Global};
use std::fmt::Write;
use std::io;

/// Plays the lines of standard input. Each is written to standard output as it stands, and behind it what its step tells;
/// behind an exclamation mark that is why the step can't be done, which has then changed nothing. `Step` says what the
/// steps are.
///
/// The lines between `each X A..B` and `end` are played for each number from A to B, which stands for the word X in
/// them, each time from a new world. They are written once, and behind them what they tell: a line for each range of
/// numbers that tell the same, with slashes in the place of line feeds.
///
/// An error comes where standard input or output fails, or memory is refused.
pub fn play(rt: &(impl Input + Print + AllocGlobal)) -> io::Result<()> {
    let mut player = Player::new(rt.alloc())?;
    for line in rt.lines(rt.alloc()) {
        let told = player.take(line?.as_str())?;
        rt.print(told)?;
    }
    Ok(())
}

/// What lines are played with: the texts, the world, and the lines that are to be repeated, where there are some.
#[derive(Drop)]
struct Player {
    alloc: Global,
    texts: Texts,
    world: World,
    repeat: Option<Repeat>,
}

impl Player {
    fn new(alloc: Global) -> Result<Player, AllocError> {
        Ok(Player {
            alloc,
            texts: Texts::new(alloc),
            world: World::new(alloc)?,
            repeat: None,
        })
    }

    /// Plays a line, and gives what is to be written.
    fn take(&mut self, line: &str) -> Result<String, AllocError> {
        let mut told = String::new(self.alloc);
        write!(told, "{line}\n")?;
        match self.repeat.take() {
            None => self.begin(line, &mut told)?,
            Some(repeat) if line == "end" => self.play_each(&repeat, &mut told)?,
            Some(repeat) => self.repeat = Some(repeat.with_line(self.alloc, line)?),
        }
        Ok(told)
    }

    /// Plays a line that is not to be repeated.
    fn begin(&mut self, line: &str, told: &mut String) -> Result<(), AllocError> {
        match line.strip_prefix("each ") {
            None => self.step(line, told),
            Some(values) => match Repeat::new(self.alloc, values) {
                Ok(repeat) => {
                    self.repeat = Some(repeat);
                    Ok(())
                }
                Err(trouble) => tell_trouble(trouble, told),
            },
        }
    }

    /// Plays the lines that are to be repeated, for each value.
    fn play_each(&mut self, repeat: &Repeat, told: &mut String) -> Result<(), AllocError> {
        let word = repeat.word.as_str();
        let mut alike: Option<Alike> = None;
        for value in repeat.first..=repeat.last {
            let outcome = self.play_once(repeat, value)?;
            alike = Some(joined(alike, word, value, outcome, told)?);
        }
        match alike {
            Some(alike) => alike.tell(word, told),
            None => Ok(()),
        }
    }

    /// Plays them for one value from a new world, and gives what they tell.
    fn play_once(&mut self, repeat: &Repeat, value: u32) -> Result<String, AllocError> {
        let mut told = String::new(self.alloc);
        self.world = World::new(self.alloc)?;
        for line in &repeat.lines {
            let line = repeat.line_for(self.alloc, line.as_str(), value)?;
            self.step(line.as_str(), &mut told)?;
        }
        Ok(told)
    }

    /// Carries the step of a line out.
    fn step(&mut self, line: &str, told: &mut String) -> Result<(), AllocError> {
        match self.carry_out(line, told) {
            Ok(()) => Ok(()),
            Err(trouble) => tell_trouble(trouble, told),
        }
    }

    fn carry_out(&mut self, line: &str, told: &mut String) -> Result<(), Trouble> {
        if let Some(text) = line.strip_prefix("|") {
            return self.texts.add(text);
        }
        match parse(self.alloc, line)? {
            Step::Nothing => Ok(()),
            Step::Scene => self.new_world(),
            Step::Text { name } => Ok(self.texts.begin(name.as_str())?),
            Step::Run {
                words,
                input,
                quiet,
            } => self.run(&words, input, quiet, told),
            Step::Set { setting } => self.world.set(setting),
            Step::Show { show } => self.world.show(show, told),
        }
    }

    /// Runs a command with a text on its source, or with nothing there.
    fn run(
        &mut self,
        words: &[String],
        input: Option<String>,
        quiet: bool,
        told: &mut String,
    ) -> Result<(), Trouble> {
        let input = self.texts.input(&input)?;
        self.world.run(words, input, quiet, told)
    }

    fn new_world(&mut self) -> Result<(), Trouble> {
        self.world = World::new(self.alloc)?;
        Ok(())
    }
}

fn tell_trouble(trouble: Trouble, told: &mut String) -> Result<(), AllocError> {
    let words = trouble.words();
    write!(told, "! {words}\n")
}

/// The numbers that tell the same as this one, with this one. Others are told.
fn joined(
    alike: Option<Alike>,
    word: &str,
    value: u32,
    outcome: String,
    told: &mut String,
) -> Result<Alike, AllocError> {
    match alike {
        Some(alike) if alike.is_told(outcome.as_str()) => Ok(alike.up_to(value)),
        Some(alike) => {
            alike.tell(word, told)?;
            Ok(Alike::new(value, outcome))
        }
        None => Ok(Alike::new(value, outcome)),
    }
}
