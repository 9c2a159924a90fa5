// The kinds of record whose payload is their numbers, each as a word.
ghost use Rattle.std.specs.Prelude.{Some, None, Option};
ghost use Rattle.field.specs.Payload.{head_payload, head_parsed, instruction_payload, instruction_parsed, word_payload, word_parsed, line_payload, line_parsed};
ghost use Rattle.field.specs.Forms.{head_form, instruction_form, word_form, line_form};

use crate::kind::Kind;
use crate::words::{read_words, write_words};
use dossier::record::{Head, Line};
use encoding::instruction::Instruction;

impl Kind for Head {
    ghost TAG = { 1 };

    ghost SIZE = { 20 };

    ghost payload = { head_payload };

    ghost parsed = { head_parsed };

    ghost form = { head_form };

    const TAG: u8 = 1;

    const SIZE: u16 = 20;

    fn read(bytes: &[u8]) -> Option<Head> {
        let [instructions, words, lines, rows, bound] = read_words::<5>(bytes)?;
        Some(Head {
            instructions,
            words,
            lines,
            rows,
            bound,
        })
    }

    fn write(&self, bytes: &mut [u8]) {
        let Head {
            instructions,
            words,
            lines,
            rows,
            bound,
        } = *self;
        write_words(&[instructions, words, lines, rows, bound], bytes);
    }
}

impl Kind for Instruction {
    ghost TAG = { 2 };

    ghost SIZE = { 8 };

    ghost payload = { instruction_payload };

    ghost parsed = { instruction_parsed };

    ghost form = { instruction_form };

    const TAG: u8 = 2;

    const SIZE: u16 = 8;

    fn read(bytes: &[u8]) -> Option<Instruction> {
        let [first, second] = read_words::<2>(bytes)?;
        Some(Instruction { first, second })
    }

    fn write(&self, bytes: &mut [u8]) {
        write_words(&[self.first, self.second], bytes);
    }
}

impl Kind for u32 {
    ghost TAG = { 3 };

    ghost SIZE = { 4 };

    ghost payload = { word_payload };

    ghost parsed = { word_parsed };

    ghost form = { word_form };

    const TAG: u8 = 3;

    const SIZE: u16 = 4;

    fn read(bytes: &[u8]) -> Option<u32> {
        let [word] = read_words::<1>(bytes)?;
        Some(word)
    }

    fn write(&self, bytes: &mut [u8]) {
        write_words(&[*self], bytes);
    }
}

impl Kind for Line {
    ghost TAG = { 4 };

    ghost SIZE = { 8 };

    ghost payload = { line_payload };

    ghost parsed = { line_parsed };

    ghost form = { line_form };

    const TAG: u8 = 4;

    const SIZE: u16 = 8;

    fn read(bytes: &[u8]) -> Option<Line> {
        let [cell, step] = read_words::<2>(bytes)?;
        Some(Line { cell, step })
    }

    fn write(&self, bytes: &mut [u8]) {
        write_words(&[self.cell, self.step], bytes);
    }
}
