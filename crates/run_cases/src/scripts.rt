//! Reads the lines of a run, from the one after `#run` to `#status`.

use crate::cases::ScriptRun;
use crate::expectations::{Expectation, Shown, When, alternatives_of};
use crate::faults::Fault;
use crate::values::{bytes_of, first_word, is_remark, number_of};
use std::alloc::Global;

/// A run of which some lines were read.
#[derive(Drop)]
pub struct RunDraft {
    pub run: ScriptRun,
    /// Whether the script has ended, so that only expectations follow.
    is_over: bool,
    /// How the trace shows the command that was read last, while nothing was expected after it.
    command: Option<String>,
    /// When that is shown which is expected next, after the line read last.
    when: When,
}

impl RunDraft {
    pub fn new(run: ScriptRun) -> RunDraft {
        RunDraft {
            run,
            is_over: false,
            command: None,
            when: When::Always,
        }
    }

    /// Takes one more line, which isn't the status.
    pub fn read(&mut self, alloc: Global, line: &str) -> Result<(), Fault> {
        let (word, rest) = first_word(line);
        match word {
            "#<" | "#>" | "#!" | "#*" => {
                self.expect(alloc, self.when, line.strip_prefix('#').unwrap_or(rest))?;
                self.keep(line)
            }
            "#=" => {
                self.expect(alloc, self.when, rest)?;
                self.keep(line)
            }
            "#met" => {
                self.expect(alloc, When::Met, rest)?;
                self.when = When::Unmet;
                self.keep(line)
            }
            "#.." if rest.is_empty() => {
                self.command = None;
                self.add(self.when, Shown::AnyLines)?;
                self.keep(line)
            }
            _ if is_remark(word) => self.keep(line),
            "#end" if rest.is_empty() => {
                self.is_over = true;
                Ok(())
            }
            _ if self.is_over => Err(Fault::Mistake("the script has ended")),
            "#plan" if rest.is_empty() => {
                self.run.plan_at = Some(self.run.script.len());
                Ok(())
            }
            _ => {
                self.command = command_of(alloc, word, rest)?;
                self.when = When::Always;
                if word.starts_with("#") {
                    self.generate(alloc, word, rest)
                } else {
                    self.put_line(line)
                }
            }
        }
    }

    /// Puts a line of the case into the script, if that has not ended.
    fn keep(&mut self, line: &str) -> Result<(), Fault> {
        if self.is_over {
            Ok(())
        } else {
            self.put_line(line)
        }
    }

    fn put_line(&mut self, line: &str) -> Result<(), Fault> {
        self.run.script.extend_from_slice(line.as_bytes())?;
        self.run.script.push(b'\n')?;
        Ok(())
    }

    /// Puts the lines into the script that a word asks for.
    fn generate(&mut self, alloc: Global, word: &str, rest: &str) -> Result<(), Fault> {
        let (count, text) = first_word(rest);
        match word {
            "#repeat" => {
                for _ in 0..number_of(count)? {
                    self.put_line(text)?;
                }
                Ok(())
            }
            "#chars" => {
                let line = text.repeat(alloc, number_of(count)? as usize)?;
                self.put_line(line.as_str())
            }
            "#raw" => {
                let bytes = bytes_of(alloc, rest)?;
                self.run.script.extend_from_slice(bytes.as_slice())?;
                Ok(())
            }
            "#crlf" => {
                self.run.script.extend_from_slice(rest.as_bytes())?;
                self.run.script.extend_from_slice(b"\r\n")?;
                Ok(())
            }
            _ => Err(Fault::Mistake("no word of a script with expectations")),
        }
    }

    /// One of the lines in this text is expected. Directly after a command, its own line is understood before an answer or a loss of
    /// power.
    fn expect(&mut self, alloc: Global, when: When, text: &str) -> Result<(), Fault> {
        let alternatives = alternatives_of(alloc, text)?;
        let follow = alternatives.iter().all(|line| line.as_str().starts_with("< ")
            || line.as_str().starts_with("! "));
        if let Some(line) = self.command.take()
            && follow
        {
            let mut lines = Vec::new(alloc);
            lines.push(line)?;
            self.add(When::Always, Shown::OneOf(lines))?;
        }
        self.add(when, Shown::OneOf(alternatives))
    }

    fn add(&mut self, when: When, shown: Shown) -> Result<(), Fault> {
        self.run.expectations.push(Expectation { when, shown })?;
        Ok(())
    }

    /// The whole run, where its status was read.
    pub fn ended(self, status: &str) -> Result<ScriptRun, Fault> {
        let RunDraft {
            mut run,
            is_over: _,
            command: _,
            when: _,
        } = self;
        let (unmet, met) = status.split_once(" met ").unwrap_or((status, status));
        run.status = number_of(unmet)?;
        run.met_status = number_of(met)?;
        Ok(run)
    }
}

/// How the trace shows a command of the script, if the line is one.
fn command_of(alloc: Global, word: &str, rest: &str) -> Result<Option<String>, Fault> {
    if word != "apdu" {
        return Ok(None);
    }
    let digits = rest.to_ascii_uppercase(alloc)?;
    let shown = digits.as_str();
    Ok(Some(format!(in alloc; "> {shown}")?))
}
