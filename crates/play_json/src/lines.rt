//! The lines that stand in a session, and those that were marked.

ghost use Rattle.std.specs.Prelude.{◌≡◌, ◌≤◌, ◌+◌, ◌++◌, ◌∷◌, [], length, map, take, IfOk, OnOk};
ghost use Rattle.play_json.specs.Answers.{common};
ghost use Rattle.play_json.specs.Lines.{back, forward, no_lines, with_line, with_mark};
ghost use Rattle.play_json.specs.Going.{IsWay};

use serde_json::{Value, push};
use std::alloc::{AllocError, Global};
use std::marker::Model;
use std::rc::Rc;

/// A line that was taken.
#[derive(Drop)]
pub(crate) struct KeptLine {
    /// What the story was given.
    given: Vec<u8>,

    /// What was typed, where it was the name of a saved game; elsewhere that was given.
    name: Option<Vec<u8>>,
}

/// The lines that were taken, the undone ones at the end, and those of each mark. A session keeps only
/// those of the turns that can be undone or done again; here are all. A line that stands in marks too is
/// kept once.
#[derive(Drop)]
pub(crate) struct Lines {
    lines: Vec<Rc<KeptLine>>,

    /// How many of them are not undone.
    done: usize,

    /// The lines of each mark.
    marks: Vec<Vec<Rc<KeptLine>>>,
}

impl Model for Lines {
    ghost use Rattle.std.specs.Prelude.{◌≤◌, length, map};
    ghost use Rattle.play_json.specs.Lines.{Lines};

    ghost Value = { Lines };

    ghost view = { λ l. record {
      all = map (λ rc. rc.value.given.items) l.lines.items;
      at = l.done;
      marks = map (λ mark. map (λ rc. rc.value.given.items) mark.items) l.marks.items;
    } };

    ghost invariant = { λ l. l.done ≤ length l.lines.items };
}

/// The way from the lines that stand to those of a mark.
#[derive(Drop)]
pub(crate) struct Way {
    /// How many lines both begin with.
    pub(crate) common: usize,

    /// The lines of the mark after them.
    pub(crate) rest: Vec<Rc<KeptLine>>,
}

impl Lines {
    /// No line, and no mark.
    pub(crate) fn new(alloc: Global) -> Lines
        ensures { result ≡ no_lines }
    {
        Lines {
            lines: Vec::new(alloc),
            done: 0,
            marks: Vec::new(alloc),
        }
    }

    /// How many lines stand.
    pub(crate) fn count(&self) -> usize
        ensures { result ≡ self.now.at }
    {
        self.done
    }

    /// Adds a line that was taken, and drops those that are undone.
    ///
    /// # Errors
    ///
    /// Memory was refused.
    pub(crate) fn add(&mut self, alloc: Global, line: &[u8]) -> Result<(), AllocError>
        ensures { OnOk result (self.new ≡ with_line line.now self.old) }
    {
        let given = Vec::from_slice(alloc, line)?;
        self.add_kept(alloc, KeptLine { given, name: None })
    }

    /// The same, of a line that was the name of a saved game: the story was given this for it.
    ///
    /// # Errors
    ///
    /// Memory was refused.
    pub(crate) fn add_given(
        &mut self,
        alloc: Global,
        name: &[u8],
        given: &[u8],
    ) -> Result<(), AllocError>
        ensures { OnOk result (self.new ≡ with_line given.now self.old) }
    {
        let given = Vec::from_slice(alloc, given)?;
        let name = Some(Vec::from_slice(alloc, name)?);
        self.add_kept(alloc, KeptLine { given, name })
    }

    /// The same, of a line as it is kept.
    fn add_kept(&mut self, alloc: Global, line: KeptLine) -> Result<(), AllocError>
        ensures { OnOk result (self.new ≡ with_line line.given.items self.old) }
    {
        match Rc::new(alloc, line) {
            Ok(line) => self.add_shared(&line),
            Err(_) => Err(AllocError),
        }
    }

    /// The same, of a line that is kept already.
    ///
    /// # Errors
    ///
    /// Memory was refused.
    pub(crate) fn add_shared(&mut self, line: &Rc<KeptLine>) -> Result<(), AllocError>
        ensures { OnOk result (self.new ≡ with_line line.now.value.given.items self.old) }
    {
        match push_behind(&mut self.lines, self.done, line) {
            Ok(()) => {
                self.done += 1;
                Ok(())
            }
            Err(error) => Err(error),
        }
    }

    /// The latest line is undone.
    pub(crate) fn shorten(&mut self)
        ensures { self.new ≡ back self.old }
    {
        self.done = self.done.saturating_sub(1);
    }

    /// The first of those that are undone is not undone any more.
    pub(crate) fn lengthen(&mut self)
        ensures { self.new ≡ forward self.old }
    {
        if self.done < self.lines.len() {
            self.done += 1;
        }
    }

    /// Marks the lines that stand, and answers the number of the mark.
    ///
    /// # Errors
    ///
    /// Memory was refused, and there is no mark more.
    pub(crate) fn mark(&mut self, alloc: Global) -> Result<usize, AllocError>
        ensures mark { OnOk result (self.new ≡ with_mark self.old) }
        ensures number { IfOk result (λ number. number ≡ length self.old.marks) }
    {
        let marked = share(alloc, &self.lines[..self.done])?;
        let number = self.marks.len();
        match push_mark(&mut self.marks, marked) {
            Ok(()) => Ok(number),
            Err(error) => Err(error),
        }
    }

    /// The way to the lines of a mark, if there is this one.
    ///
    /// # Errors
    ///
    /// Memory was refused.
    pub(crate) fn way_to(&self, alloc: Global, number: usize) -> Result<Option<Way>, AllocError>
        ensures { IfOk result (IsWay self.now number) }
    {
        let Some(mark) = self.marks.get(number) else {
            return Ok(None);
        };
        let common = count_common(self.lines.as_slice(), mark.as_slice());
        let rest = share(alloc, &mark[common..])?;
        Ok(Some(Way { common, rest }))
    }

    /// Those that are not undone, as they were typed.
    ///
    /// # Errors
    ///
    /// Memory was refused.
    pub(crate) fn show(&self, alloc: Global) -> Result<Value, AllocError> {
        let mut shown = Vec::new(alloc);
        for line in self.lines.iter().take(self.done) {
            let text = String::from_utf8_lossy(alloc, typed_as(line))?;
            push(&mut shown, Value::String(text))?;
        }
        Ok(Value::Array(shown))
    }
}

/// Adds a line behind the first `done` lines, and drops those after them. At `Err` memory was refused.
fn push_behind(
    lines: &mut Vec<Rc<KeptLine>>,
    done: usize,
    line: &Rc<KeptLine>,
) -> Result<(), AllocError>
    requires { done ≤ length lines.old.items }
    ensures added { OnOk result (map (λ rc. rc.value.given.items) lines.new.items
        ≡ take done (map (λ rc. rc.value.given.items) lines.old.items) ++ line.now.value.given.items ∷ []) }
    ensures more { OnOk result (length lines.new.items ≡ done + 1) }
    ensures within { done ≤ length lines.new.items }
{
    let line = line.clone()?;
    lines.truncate(done);
    match lines.push(line) {
        Ok(()) => Ok(()),
        Err(_) => Err(AllocError),
    }
}

/// Adds a mark. At `Err` memory was refused, and there is none more.
fn push_mark(
    marks: &mut Vec<Vec<Rc<KeptLine>>>,
    marked: Vec<Rc<KeptLine>>,
) -> Result<(), AllocError>
    ensures { OnOk result (map (λ mark. map (λ rc. rc.value.given.items) mark.items) marks.new.items
        ≡ map (λ mark. map (λ rc. rc.value.given.items) mark.items) marks.old.items
        ++ map (λ rc. rc.value.given.items) marked.items ∷ []) }
{
    match marks.push(marked) {
        Ok(()) => Ok(()),
        Err(_) => Err(AllocError),
    }
}

/// The same lines, which are not copied.
fn share(alloc: Global, lines: &[Rc<KeptLine>]) -> Result<Vec<Rc<KeptLine>>, AllocError>
    ensures { IfOk result (λ copies. map (λ rc. rc.value.given.items) copies.items
        ≡ map (λ rc. rc.value.given.items) lines.now) }
{
    let mut copies = Vec::new(alloc);
    copies.reserve(lines.len())?;
    for line in lines {
        copies.push(line.clone()?)?;
    }
    Ok(copies)
}

/// What was typed of a line.
fn typed_as(line: &Rc<KeptLine>) -> &[u8] {
    match &line.name {
        Some(name) => name.as_slice(),
        None => line.given.as_slice(),
    }
}

/// What the story was given of a line.
pub(crate) fn given_of(line: &Rc<KeptLine>) -> &[u8]
    ensures { result.now ≡ line.now.value.given.items }
{
    line.given.as_slice()
}

/// How many lines two lists begin with alike.
fn count_common(some: &[Rc<KeptLine>], other: &[Rc<KeptLine>]) -> usize
    ensures same { result ≡ common (map (λ rc. rc.value.given.items) some.now)
        (map (λ rc. rc.value.given.items) other.now) }
    ensures within { result ≤ length other.now }
{
    let most = some.len().min(other.len());
    for count in 0..most {
        if given_of(&some[count]) != given_of(&other[count]) {
            return count;
        }
    }
    most
}
