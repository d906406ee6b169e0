//! The state that the rounds of a stream share.

use crate::batch::Room;
use crate::settings::Settings;
use bumpalo::Bump;
use registry::{ClassId, Registry};
use std::alloc::Global;
use workers::WorkspacePool;

/// The context of the rounds of a stream: threads, memory, classes, settings, gate and loader.
#[derive(Drop)]
pub struct Server<'h, T, G, L> {
    pub rt: &'h T,
    pub alloc: Global,
    pub registry: &'h Registry,
    pub settings: Settings,
    pub gate: &'h G,
    pub loader: &'h L,
}

/// The state that a round passes to the next one: the classes that the stream defined and didn't forget, by number,
/// the size of the previous round, and the workspaces of the workers.
#[derive(Drop)]
pub struct StreamState {
    pub ids: Vec<Option<ClassId>>,
    pub room: Room,
    pub workspaces: WorkspacePool,
}

/// The memory and the classes for the requests of a round. The arena holds their keys and arguments.
#[derive(Drop)]
pub struct RoundSource<'r> {
    pub alloc: Global,
    pub arena: &'r Bump,
    pub registry: &'r Registry,
}
