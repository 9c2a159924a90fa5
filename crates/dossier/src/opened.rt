// A dossier that was asked for its head, seen as its meaning.
ghost use Rattle.std.specs.Prelude.{◌≡◌};
ghost use Rattle.std.specs.List.{slice_get};
ghost use Rattle.dossier.specs.Meaning.{Meaning, Made, head_answer, item_answer};

use crate::listed::ListedRecord;
use crate::questions::Dossier;
use crate::record::{Head, Line, Row};
use crate::refusal::Refusal;
use encoding::instruction::Instruction;
use std::marker::Model;

// The dossier keeps its own rule, and its head counts the lists, in which all numbers fit.
#[derive(Drop)]
pub struct Opened<D: Dossier> {
    dossier: D,
    head: Result<Head, Refusal>,
}

impl<D: Dossier> Model for Opened<D> {
    ghost Value = { Meaning };

    ghost view = { λ o. D.Dossier.meaning o.dossier };

    ghost invariant = { λ o. D.Dossier.rule o.dossier × Made (D.Dossier.meaning o.dossier) × (o.head ≡ head_answer (D.Dossier.meaning o.dossier)) };
}

impl<D: Dossier> Opened<D> {
    pub fn new(mut dossier: D) -> Opened<D>
        requires { D.Dossier.rule dossier }
        ensures { result ≡ D.Dossier.meaning dossier }
    {
        let head = dossier.head();
        Opened { dossier, head }
    }

    #[inline(always)]
    pub fn head(&self) -> Result<Head, Refusal>
        ensures made { Made self.now }
        ensures answer { result ≡ head_answer self.now }
    {
        self.head
    }

    // The record of a kind at a place of its part. Who asks says that the meaning stays, since asking takes `&mut self`: a
    // holder may keep what it has read.
    #[inline(always)]
    pub fn ask<R: ListedRecord>(&mut self, place: u32) -> Result<R, Refusal>
        ensures same { self.new ≡ self.old }
        ensures answer { result ≡ item_answer R.ListedRecord.PART place (slice_get (R.ListedRecord.list self.old) place) }
    {
        R::ask(&mut self.dossier, place)
    }
}

// What it means is its value. It has no rule of its own, since its type keeps what asking needs; so what takes any dossier
// by its rule takes an opened one with nothing to show.
impl<D: Dossier> Dossier for Opened<D> {
    ghost meaning = { λ o. o };

    ghost rule = { λ _. Unit {0} };

    #[inline(always)]
    fn head(&mut self) -> Result<Head, Refusal> {
        Opened::head(self)
    }

    #[inline(always)]
    fn instruction(&mut self, place: u32) -> Result<Instruction, Refusal> {
        self.ask(place)
    }

    #[inline(always)]
    fn word(&mut self, place: u32) -> Result<u32, Refusal> {
        self.ask(place)
    }

    #[inline(always)]
    fn line(&mut self, place: u32) -> Result<Line, Refusal> {
        self.ask(place)
    }

    #[inline(always)]
    fn row(&mut self, place: u32) -> Result<Row, Refusal> {
        self.ask(place)
    }
}
