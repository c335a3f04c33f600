// Calls of a bench, each with what it is handed and room for its answer.
use formula::entry::Entry;
use hml::line::Line;
use hml::step::Step;
use law::refusals::{AlikeRefusal, EnterRefusal, ReachRefusal, RuleRefusal, TellRefusal};

// Each call in a struct of its own, as each says by its fields what it is handed.
#[derive(Drop)]
pub struct Entering {
    pub list: Vec<Entry>,
    pub answer: Option<Result<u8, EnterRefusal>>,
}

#[derive(Drop)]
pub struct Ruling {
    pub formula: u8,
    pub state: u16,
    pub answer: Option<Result<bool, RuleRefusal>>,
}

#[derive(Drop)]
pub struct Reaching {
    pub formula: u8,
    pub state: u16,
    pub path: Vec<Step>,
    pub answer: Option<Result<Option<u16>, ReachRefusal>>,
}

#[derive(Drop)]
pub struct Comparing {
    pub first: u16,
    pub second: u16,
    pub answer: Option<Result<bool, AlikeRefusal>>,
}

#[derive(Drop)]
pub struct Telling {
    pub first: u16,
    pub second: u16,
    pub lines: Vec<Line>,
    pub answer: Option<Result<u16, TellRefusal>>,
}

// A call of a settled bench, as data and no closure, since it is handed back with its answer beside it.
#[derive(Drop)]
pub enum Question {
    Rule(Ruling),
    Reach(Reaching),
    Alike(Comparing),
    Tell(Telling),
}

// Lists that are entered, then questions that are asked once the bench is settled.
#[derive(Drop)]
pub struct Round {
    pub lists: Vec<Entering>,
    pub questions: Vec<Question>,
}

// How the calls end: with an open bench, or with a settled one.
#[derive(Drop)]
pub enum Ending {
    Open(Vec<Entering>),
    Settled(Round),
}

// A list of calls from the opening on, none of them out of turn: the bench is reopened after each of the rounds.
#[derive(Drop)]
pub struct Script {
    pub rounds: Vec<Round>,
    pub ending: Ending,
}
