//! Paragraphs of lines, each played in a world of its own. The world and the graph are let go by the crates that make them.

use crate::playing::Played;
use graph_cases::{NamedGraph, graph, let_go};
use std::alloc::Global;
use std::fmt::Write;
use std::test::Fail;
use world_cases::{add_all, nothing};

impl Played {
    /// Does what a line says, and adds it to others if something else comes of it than what stands behind its last ` = `.
    fn play_line(&mut self, alloc: Global, line: &str, wrong: &mut String) -> Result<(), Fail> {
        let (given, wanted) = line.rsplit_once(" = ").ok_or("no answer")?;
        let mut got = String::new(alloc);
        self.write_step(alloc, given, &mut got)?;
        if got.as_str() != wanted {
            writeln!(wrong, "{line}: {got}")?;
        }
        Ok(())
    }

    /// Does what the lines of a case say, and answers how many these are.
    fn play(
        &mut self,
        alloc: Global,
        title: &str,
        lines: &str,
        wrong: &mut String,
    ) -> Result<usize, Fail> {
        let is_made = !title.starts_with("While all is made");
        add_all(alloc, &mut self.parts, is_made)?;
        let mut there = 0usize;
        for line in lines.lines() {
            self.play_line(alloc, line, wrong)?;
            there = there.saturating_add(1);
        }
        Ok(there)
    }

    /// Lets the world go, and the graph.
    fn end(self) {
        let Played {
            named,
            parts,
            copying: _,
        } = self;
        world_cases::let_go(parts);
        let_go(named);
    }
}

/// Does what the lines of a case say in a new world of a graph, and answers how many these are.
fn played_in(
    alloc: Global,
    named: NamedGraph,
    paragraph: &str,
    wrong: &mut String,
) -> Result<usize, Fail> {
    let (title, lines) = paragraph.split_once('\n').unwrap_or((paragraph, ""));
    let mut played = Played {
        named,
        parts: nothing(alloc),
        copying: None,
    };
    let came = played.play(alloc, title, lines, wrong);
    played.end();
    came
}

/// The same in a graph of its own.
fn played(alloc: Global, paragraph: &str, wrong: &mut String) -> Result<usize, Fail> {
    match graph(alloc) {
        Ok(named) => played_in(alloc, named, paragraph, wrong),
        Err(fail) => Err(fail),
    }
}

/// What is told of a table of such cases: the lines of which something else comes than what stands behind their last ` = `, each with what comes
/// of it, and then how many lines there are.
pub(crate) fn plays_told(alloc: Global, text: &str) -> Result<String, Fail> {
    let mut told = String::new(alloc);
    let mut there = 0usize;
    for paragraph in text.trim_matches('\n').split("\n\n") {
        there = there.saturating_add(played(alloc, paragraph, &mut told)?);
    }
    write!(told, "{there} steps")?;
    Ok(told)
}
