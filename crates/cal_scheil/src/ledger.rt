/// Of each element, in units of 1/N nmol: what became solid, what remains of the liquid, and what was asked and is in no equilibrium.
#[derive(Clone, Copy)]
pub struct Ledger<'a> {
    pub solids: &'a [i128],
    pub remains: &'a [i128],
    pub lost: &'a [i128],
}
