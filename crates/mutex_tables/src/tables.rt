use kernel_tables::Tables;
use mutex_chain::MutexGraph;
use object_box::Objects;
use rt_base::Prio;
use std::marker::Model;

/// The threads, which of them are ready, the objects that they wait for, and who owns which mutex. Contracts see the
/// plain threads with their base priorities, the plain ready list, the plain objects, and the owners. What it keeps:
/// each list has the threads that haven't ended by their current priorities.
#[derive(Drop)]
pub struct MutexTables {
    pub(crate) tables: Tables,
    pub(crate) bases: Vec<Prio>,
    pub(crate) names: Objects,
    pub(crate) graph: MutexGraph,
}

impl Model for MutexTables {
    ghost use Rattle.mutex_tables.specs.MutexTabled.{MutexTabled, seen};
    ghost use Rattle.mutex_tables.specs.Kept.{AreMutexTables};

    ghost Value = { MutexTabled };

    ghost view = { λ k. seen k.tables k.bases.items k.names.mutex k.graph };

    ghost invariant = { λ k. AreMutexTables k.tables k.bases.items k.names.mutex k.graph };
}
