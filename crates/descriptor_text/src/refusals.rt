//! Why a text describes no deployment.

use deployment::DeployRefusal;

/// A key of a descriptor text.
#[derive(Clone, Copy)]
pub enum FieldName {
    /// The array of tables itself.
    Component,
    /// A component's name.
    Name,
    /// The names of the components that must be rebooted with it.
    Hard,
    /// The names of the other components that it calls.
    Soft,
    /// The tables that it owns.
    Tables,
    /// Its methods.
    Methods,
}

/// A key of a component that has another form than the format asks for.
#[derive(Clone, Copy)]
pub(crate) struct WrongField {
    /// The place of the component.
    pub component: usize,
    /// Its key.
    pub field: FieldName,
}

/// Why nothing was read from a document or a part of it.
#[derive(Clone, Copy)]
pub(crate) enum ReadRefusal<E> {
    /// A key has another form than the format asks for.
    Wrong(E),
    /// The allocator had no memory.
    OutOfMemory,
}

impl<E> From<crash_base::OutOfMemory> for ReadRefusal<E> {
    ghost use Rattle.std.specs.Prelude.{◌≡◌};
    ghost use Rattle.descriptor_text.specs.declared.refusals.ReadRefusal.TheVariants.{OutOfMemory};

    ghost from_gives = { λ _ refusal. refusal ≡ OutOfMemory };

    fn from(_error: crash_base::OutOfMemory) -> ReadRefusal<E> {
        ReadRefusal::OutOfMemory
    }
}

/// Why a text was refused, in the order in which the causes are looked at.
#[derive(Clone, Copy)]
pub enum TextRefusal {
    /// The bytes are not UTF-8, or the text is no TOML document.
    NotToml,
    /// The first key of the first component that has another form than the format asks for. A
    /// component is named by its place, and the first is at 0. Where `component` is no array of
    /// tables, this is `FieldName::Component` of component 0.
    Field {
        /// The place of the component.
        component: usize,
        /// Its key.
        field: FieldName,
    },
    /// The parts that the text describes are no deployment.
    Deploy(DeployRefusal),
    /// The allocator had no memory.
    OutOfMemory,
}

impl From<crash_base::OutOfMemory> for TextRefusal {
    ghost use Rattle.std.specs.Prelude.{◌≡◌};
    ghost use Rattle.descriptor_text.specs.declared.refusals.TextRefusal.TheVariants.{OutOfMemory};

    ghost from_gives = { λ _ refusal. refusal ≡ OutOfMemory };

    fn from(_error: crash_base::OutOfMemory) -> TextRefusal {
        TextRefusal::OutOfMemory
    }
}
