/// The single move of a constant, made ready.
#[derive(Drop)]
pub struct ConstantStep {
    /// What the receiver holds of it.
    pub bytes: Vec<u8>,
}
