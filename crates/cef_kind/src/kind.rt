/// What a parameter adds to: the energy, the Curie temperature or the magnetic moment. An unread parameter has no
/// effect, and any other has no meaning here.
#[derive(Clone, Copy, Debug, PartialEq, Eq)]
pub enum Kind {
    G,
    Tc,
    Beta,
    Unread,
    Other,
}
