//! `Tree`: the instances of a flat circuit.
ghost use Rattle.std.specs.Prelude.{◌≡◌, ◌≢◌, ◌<◌, ◌-◌, ◌^◌, [], ◌∷◌, ◌++◌, length, Err, OnOk, OnErr, IfOk, IfSome, IfNone, Some, slice_get, AllPairs, Contains, option_copied};
ghost use Rattle.gg_bits.specs.declared.paths.AddError.TheVariants.{Doubled};
ghost use Rattle.gg_flat_tree.specs.inside.Tree.{no_tree};

use gg_bits::{AddError, Ids, Items, Name, Names, Paths};
use std::alloc::{AllocError, Global};
use std::marker::Model;

/// A port of an instance.
#[derive(Clone, Copy, PartialEq, Eq)]
pub struct InstancePort {
    /// Its signal, by its number.
    pub signal: u32,
    /// Whether it is an input of the instance; otherwise it is an output.
    pub is_input: bool,
}

/// Clocks by their numbers, or none.
pub type ClockNumbers = Items<Option<u32>>;

/// An instance of a module, or the top. Signals, memories and other instances are given by their numbers.
pub struct Instance {
    /// The instance that holds it; none for the top.
    pub parent: Option<u32>,
    /// Its module, by its number in the circuit.
    pub module: u32,
    /// The first signal of it and of the instances below it.
    pub first: u32,
    /// The end of these signals: the number after the last.
    pub end: u32,
    /// Its ports, in port order, without clocks.
    pub ports: Items<InstancePort>,
    /// Its own memories, in the order of the file.
    pub memories: Ids,
    /// For each of its Clock inputs, in port order, the Clock input of its parent that it follows. A Clock input of the
    /// top follows itself.
    pub clocks: ClockNumbers,
}

impl Drop for Instance {
    fn drop(self) {
        let Self {
            parent: _,
            module: _,
            first: _,
            end: _,
            ports,
            memories,
            clocks,
        } = self;
        drop(ports);
        drop(memories);
        drop(clocks);
    }
}

impl Clone for Instance {
    ghost is_clone = { λ instance copy. copy ≡ instance };

    fn clone(&self) -> Result<Instance, AllocError> {
        Ok(Instance {
            parent: self.parent,
            module: self.module,
            first: self.first,
            end: self.end,
            ports: self.ports.clone()?,
            memories: self.memories.clone()?,
            clocks: self.clocks.clone()?,
        })
    }
}

/// A memory in the tree, with the data that a flat circuit has no signal for. The tree keeps its path.
pub struct MemoryInstance {
    /// The instance that holds it.
    pub instance: u32,
    /// Its number in the flat circuit.
    pub memory: u32,
    /// The names of its ports: the readers first, then the writers, each in the order of the file.
    pub ports: Names,
    /// For each of these ports, the Clock input of its instance that it follows.
    pub clocks: ClockNumbers,
}

impl Drop for MemoryInstance {
    fn drop(self) {
        let Self {
            instance: _,
            memory: _,
            ports,
            clocks,
        } = self;
        drop(ports);
        drop(clocks);
    }
}

impl Clone for MemoryInstance {
    ghost is_clone = { λ memory copy. copy ≡ memory };

    fn clone(&self) -> Result<MemoryInstance, AllocError> {
        Ok(MemoryInstance {
            instance: self.instance,
            memory: self.memory,
            ports: self.ports.clone()?,
            clocks: self.clocks.clone()?,
        })
    }
}

/// A stop in the tree, which requests the end of a run (FIRRTL Specification, "Stop").
#[derive(Clone, Copy, PartialEq, Eq)]
pub struct StopInstance {
    /// The instance of the module that declares it.
    pub instance: u32,
    /// Its signal: its condition, one unsigned bit.
    pub signal: u32,
    /// The Clock input of its instance that it follows.
    pub clock: Option<u32>,
}

/// The instances of a flat circuit in the order of the tree: the top first, and each followed by all that are below it.
/// A contract sees it as an `InstanceTree`. No two instances have the same path, and no two memories; the top's path is
/// empty.
///
/// The tree doesn't check what it is given. The code that fills it for a circuit must prove that it is the tree of that
/// circuit (`IsTree` in `specs/Tree`).
pub struct Tree {
    paths: Paths,
    instances: Vec<Instance>,
    memory_paths: Paths,
    memories: Vec<MemoryInstance>,
    clocks: Vec<Name>,
    register_clocks: Vec<Option<u32>>,
    stops: Vec<StopInstance>,
}

impl Drop for Tree {
    fn drop(self) {
        let Self {
            paths,
            instances,
            memory_paths,
            memories,
            clocks,
            register_clocks,
            stops,
        } = self;
        drop(paths);
        drop(instances);
        drop(memory_paths);
        drop(memories);
        drop(clocks);
        drop(register_clocks);
        drop(stops);
    }
}

impl Model for Tree {
    ghost use Rattle.std.specs.Prelude.{◌≡◌, length};
    ghost use Rattle.gg_flat_tree.specs.Tree.{InstanceTree};

    ghost Value = { InstanceTree };

    ghost view = { λ tree. record { paths = tree.paths; instances = tree.instances.items; memory_paths = tree.memory_paths; memories = tree.memories.items; clocks = tree.clocks.items; register_clocks = tree.register_clocks.items; stops = tree.stops.items } };

    ghost invariant = { λ tree. (length tree.paths ≡ length tree.instances.items) × (length tree.memory_paths ≡ length tree.memories.items) };
}

impl Tree {
    /// The tree without an instance.
    pub fn new(alloc: Global) -> Tree
        ensures { result ≡ no_tree }
    {
        Tree {
            paths: Paths::new(alloc),
            instances: Vec::new(alloc),
            memory_paths: Paths::new(alloc),
            memories: Vec::new(alloc),
            clocks: Vec::new(alloc),
            register_clocks: Vec::new(alloc),
            stops: Vec::new(alloc),
        }
    }

    /// A copy of the tree.
    ///
    /// # Errors
    ///
    /// Returns `AllocError` if an allocation fails.
    pub fn copy(&self) -> Result<Tree, AllocError>
        ensures { IfOk result (λ copy. copy ≡ self.now) }
    {
        Ok(Tree {
            paths: self.paths.clone()?,
            instances: self.instances.clone()?,
            memory_paths: self.memory_paths.clone()?,
            memories: self.memories.clone()?,
            clocks: self.clocks.clone()?,
            register_clocks: self.register_clocks.clone()?,
            stops: self.stops.clone()?,
        })
    }

    /// The instances, in order.
    pub fn instances(&self) -> &[Instance]
        ensures { result.now ≡ self.now.instances }
    {
        self.instances.as_slice()
    }

    /// The memories, in the order of the tree.
    pub fn memories(&self) -> &[MemoryInstance]
        ensures { result.now ≡ self.now.memories }
    {
        self.memories.as_slice()
    }

    /// The names of the top's Clock inputs, in port order.
    pub fn clocks(&self) -> &[Name]
        ensures { result.now ≡ self.now.clocks }
    {
        self.clocks.as_slice()
    }

    /// For each register of the flat circuit, in order, the Clock input of its instance that it follows.
    pub fn register_clocks(&self) -> &[Option<u32>]
        ensures { result.now ≡ self.now.register_clocks }
    {
        self.register_clocks.as_slice()
    }

    /// The stops, in the order of the tree.
    pub fn stops(&self) -> &[StopInstance]
        ensures { result.now ≡ self.now.stops }
    {
        self.stops.as_slice()
    }

    /// How many instances there are, the top among them, which is how many paths there are: fewer than 4,294,967,296.
    pub fn len(&self) -> usize
        ensures count { result ≡ length self.now.instances }
        ensures paths { length self.now.paths ≡ length self.now.instances }
        ensures few { length self.now.instances < 2 ^ 32 }
        ensures distinct { AllPairs (λ a b. a ≢ b) self.now.paths }
    {
        self.paths.len()
    }

    /// How many memories there are, which is how many paths of memories there are: fewer than 4,294,967,296.
    pub fn memory_count(&self) -> usize
        ensures count { result ≡ length self.now.memories }
        ensures paths { length self.now.memory_paths ≡ length self.now.memories }
        ensures few { length self.now.memories < 2 ^ 32 }
        ensures distinct { AllPairs (λ a b. a ≢ b) self.now.memory_paths }
    {
        self.memory_paths.len()
    }

    /// The number of the instance with this path, if there is one.
    pub fn find(&self, path: &Name) -> Option<u32>
        ensures found { IfSome result (λ instance. slice_get self.now.paths instance ≡ Some path.now) }
        ensures missing { IfNone result (¬ Contains self.now.paths path.now) }
    {
        self.paths.find(path)
    }

    /// The place in `memories` of the memory with this path, if there is one.
    pub fn find_memory(&self, path: &Name) -> Option<u32>
        ensures found { IfSome result (λ place. slice_get self.now.memory_paths place ≡ Some path.now) }
        ensures missing { IfNone result (¬ Contains self.now.memory_paths path.now) }
    {
        self.memory_paths.find(path)
    }

    /// The path of an instance; none past the end.
    pub fn path(&self, instance: u32) -> Option<&Name>
        ensures { option_copied result ≡ slice_get self.now.paths instance }
    {
        self.paths.get(instance)
    }

    /// The path of the memory at this place in `memories`; none past the end.
    pub fn memory_path(&self, place: u32) -> Option<&Name>
        ensures { option_copied result ≡ slice_get self.now.memory_paths place }
    {
        self.memory_paths.get(place)
    }

    /// Adds an instance, as the last. There are at most 4,294,967,294 instances before.
    ///
    /// # Errors
    ///
    /// Returns `Doubled` if an instance has that path. Returns `NoMemory` if an allocation fails. The tree then stays
    /// as it was.
    pub fn add(&mut self, path: Name, instance: Instance) -> Result<(), AddError>
        requires { length self.old.instances < 2 ^ 32 - 1 }
        ensures ok { OnOk result (self.new ≡ record self.old { paths = self.old.paths ++ path ∷ []; instances = self.old.instances ++ instance ∷ [] }) }
        ensures fresh { OnOk result (¬ Contains self.old.paths path) }
        ensures doubled { result ≡ Err Doubled → Contains self.old.paths path }
        ensures err { OnErr result (self.new ≡ self.old) }
    {
        if self.instances.reserve(1).is_err() {
            return Err(AddError::NoMemory);
        }
        match self.paths.add(path) {
            Ok(()) => {
                self.instances.push_reserved(instance);
                Ok(())
            }
            Err(cause) => Err(cause),
        }
    }

    /// Adds a memory, as the last. There are at most 4,294,967,294 memories before.
    ///
    /// # Errors
    ///
    /// Returns `Doubled` if a memory has that path. Returns `NoMemory` if an allocation fails. The tree then stays as
    /// it was.
    pub fn add_memory(&mut self, path: Name, memory: MemoryInstance) -> Result<(), AddError>
        requires { length self.old.memories < 2 ^ 32 - 1 }
        ensures ok { OnOk result (self.new ≡ record self.old { memory_paths = self.old.memory_paths ++ path ∷ []; memories = self.old.memories ++ memory ∷ [] }) }
        ensures fresh { OnOk result (¬ Contains self.old.memory_paths path) }
        ensures doubled { result ≡ Err Doubled → Contains self.old.memory_paths path }
        ensures err { OnErr result (self.new ≡ self.old) }
    {
        if self.memories.reserve(1).is_err() {
            return Err(AddError::NoMemory);
        }
        match self.memory_paths.add(path) {
            Ok(()) => {
                self.memories.push_reserved(memory);
                Ok(())
            }
            Err(cause) => Err(cause),
        }
    }

    /// Adds a Clock input of the top, as the last.
    ///
    /// # Errors
    ///
    /// Returns `AllocError` if an allocation fails. The tree then stays as it was.
    pub fn add_clock(&mut self, name: Name) -> Result<(), AllocError>
        ensures ok { OnOk result (self.new ≡ record self.old { clocks = self.old.clocks ++ name ∷ [] }) }
        ensures err { OnErr result (self.new ≡ self.old) }
    {
        self.clocks.push(name)?;
        Ok(())
    }

    /// Adds the Clock input that the next register of the flat circuit follows.
    ///
    /// # Errors
    ///
    /// Returns `AllocError` if an allocation fails. The tree then stays as it was.
    pub fn add_register_clock(&mut self, clock: Option<u32>) -> Result<(), AllocError>
        ensures ok { OnOk result (self.new ≡ record self.old { register_clocks = self.old.register_clocks ++ clock ∷ [] }) }
        ensures err { OnErr result (self.new ≡ self.old) }
    {
        self.register_clocks.push(clock)?;
        Ok(())
    }

    /// Adds a stop, as the last.
    ///
    /// # Errors
    ///
    /// Returns `AllocError` if an allocation fails. The tree then stays as it was.
    pub fn add_stop(&mut self, stop: StopInstance) -> Result<(), AllocError>
        ensures ok { OnOk result (self.new ≡ record self.old { stops = self.old.stops ++ stop ∷ [] }) }
        ensures err { OnErr result (self.new ≡ self.old) }
    {
        self.stops.push(stop)?;
        Ok(())
    }
}
