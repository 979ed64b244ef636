// Numbers, as in yogi's number.rs: thousandths.
#[derive(Clone, Copy)]
pub struct Number(pub i64);

impl Number {
    pub const ZERO: Number = Number(0);

    pub const ONE: Number = Number(1000);
}
