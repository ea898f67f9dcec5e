// The templates by name.

// A template of Booth and Lueker (1976).
#[derive(Clone, Copy)]
pub enum Template {
    L1,
    P1,
    P2,
    P3,
    P4,
    P5,
    P6,
    Q1,
    Q2,
    Q3,
}
