use crate::tables::Plan;

pub mod calls;

// A plan in the making. Sealing takes it, so nothing can be planned on a sealed machine.
#[derive(Drop)]
pub struct Draft {
    plan: Plan,
}
