// One kind of case for each entry. Lists hold up to 80 frames and masks up to 2,100 bytes, past every limit.

use crate::input::Numbers;
use crate::print;
use evidence::evidence::creaky_tail;
use evidence::joins::joins;
use frames::stage::stage_boundaries;
use limits::common::ABSENT;
use rate::duration::rate_s;
use spans::bounds::Bounds;
use spans::spans::tbu_spans;
use std::io;

// More cases than a text holds.
const MOST_CASES: u32 = 100000;

// A default for a rate: within the range, at its ends and just past them, and what is no number or not finite.
fn default_of(k: u32) -> f64 {
    match k {
        0 => 0.25,
        1 => -1000000.0,
        2 => 1000000.0,
        3 => -1000000.0000000001,
        4 => 1000000.0000000001,
        5 => 0.0 / 0.0,
        6 => 1.0 / 0.0,
        7 => -1.0 / 0.0,
        8 => -0.0,
        _ => 1e-320,
    }
}

// A case that is run: its numbers, and where its answer is printed.
#[derive(Drop)]
struct Run<'a, P: Print> {
    rt: &'a P,
    numbers: Numbers<'a>,
}

impl<'a, P: Print> Run<'a, P> {
    // 1: default, frames.
    fn rate(&mut self) -> io::Result<()> {
        let default_s = default_of(self.numbers.figure());
        let mut cells = [0u32; 80];
        let frames = self.numbers.list(&mut cells);
        print::rate(self.rt, rate_s(frames, default_s))?;
        print::end_line(self.rt)
    }

    // 2: low edge, high edge, words of the output, nuclei, boundaries.
    fn spans(&mut self) -> io::Result<()> {
        let lo_edge = self.numbers.figure();
        let hi_edge = self.numbers.figure();
        let mut cells = [7777u32; 140];
        let room = self.numbers.count(140);
        let out = &mut cells[..room];
        let mut nucleus_cells = [0u32; 80];
        let nuclei = self.numbers.list(&mut nucleus_cells);
        let mut boundary_cells = [0u32; 80];
        let bounds = Bounds {
            boundaries: self.numbers.list(&mut boundary_cells),
            lo_edge,
            hi_edge,
        };
        print::spans(self.rt, tbu_spans(nuclei, &bounds, out))?;
        print::cells(self.rt, out)?;
        print::end_line(self.rt)
    }

    // 3: start, end, voice mask, pitch mask.
    fn joins(&mut self) -> io::Result<()> {
        let start = self.numbers.figure();
        let end = self.numbers.figure();
        let mut voice_cells = [0u8; 2100];
        let voice = self.numbers.mask(&mut voice_cells);
        let mut pitch_cells = [0u8; 2100];
        let pitched = self.numbers.mask(&mut pitch_cells);
        print::joins(self.rt, joins(voice, pitched, start, end))?;
        print::end_line(self.rt)
    }

    // 4: start, end, next nucleus, where `ABSENT` stands for none, pitch mask, vowel speech mask.
    fn tail(&mut self) -> io::Result<()> {
        let start = self.numbers.figure();
        let end = self.numbers.figure();
        // As `frame_of` of tikuwero reads it, which stands above the entries that are run here, and above the decoder too.
        let word = self.numbers.figure();
        let next = (word != ABSENT).then_some(word);
        let mut pitch_cells = [0u8; 2100];
        let pitched = self.numbers.mask(&mut pitch_cells);
        let mut vowel_cells = [0u8; 2100];
        let vowel_speech = self.numbers.mask(&mut vowel_cells);
        print::tail(
            self.rt,
            creaky_tail(start, end, next, pitched, vowel_speech),
        )?;
        print::end_line(self.rt)
    }

    // 5: stage word, boundaries of the nuclei stage, boundaries of the added stage.
    fn stage(&mut self) -> io::Result<()> {
        let word = self.numbers.figure();
        let mut nucleus_cells = [0u32; 80];
        let nuclei = self.numbers.list(&mut nucleus_cells);
        let mut added_cells = [0u32; 80];
        let added = self.numbers.list(&mut added_cells);
        print::stage(self.rt, stage_boundaries(nuclei, added, word))
    }

    // The kinds are numbers of the cases' text, and are told apart in this one place: an enum would be matched only here.
    fn case(&mut self, kind: u32) -> io::Result<()> {
        match kind {
            1 => self.rate(),
            2 => self.spans(),
            3 => self.joins(),
            4 => self.tail(),
            _ => self.stage(),
        }
    }
}

// Runs case after case, up to the end of the text or a kind of 0.
pub(crate) fn run_all<P: Print>(rt: &P, text: &[u8]) -> io::Result<()> {
    let mut run = Run {
        rt,
        numbers: Numbers::of(text),
    };
    for _ in 0..MOST_CASES {
        let kind = run.numbers.figure();
        if kind == 0 {
            break;
        }
        run.case(kind)?;
    }
    Ok(())
}
