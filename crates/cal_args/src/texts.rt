/// A command, with the texts of its options as the words have them.
#[derive(Clone, Copy)]
pub enum CommandTexts<'a> {
    Equilibrium(EquilibriumTexts<'a>),
    Scheil(ScheilTexts<'a>),
    Check(CheckTexts<'a>),
    Table(TableTexts<'a>),
}

#[derive(Clone, Copy)]
pub struct EquilibriumTexts<'a> {
    pub db: &'a str,
    pub t: &'a str,
    pub amounts: &'a str,
    pub lattice: &'a str,
    pub gap: &'a str,
    pub budget: &'a str,
    pub phases: Option<&'a str>,
}

#[derive(Clone, Copy)]
pub struct ScheilTexts<'a> {
    /// What an equilibrium is given too.
    pub first: EquilibriumTexts<'a>,
    pub step: &'a str,
    pub end: &'a str,
    pub stop: &'a str,
    pub liquid: &'a str,
}

#[derive(Clone, Copy)]
pub struct CheckTexts<'a> {
    pub db: &'a str,
    pub report: &'a str,
}

#[derive(Clone, Copy)]
pub struct TableTexts<'a> {
    pub report: &'a str,
}
