// Which names are protected: of those the machine keeps the value registers.
#[derive(Clone, Copy)]
pub struct CodegenOptions {
    pub protect_locals: bool,
    pub protect_globals: bool,
}
