//! The roles of names, and the roles that each context of an expression requires.

ghost use Rattle.std.specs.Prelude.{◌≡◌};
ghost use Rattle.mu_names.specs.Naming.{is_wanted, wants_loops, wanted_in, wanted_before};

/// The role of a declared name.
#[derive(Clone, Copy, PartialEq, Eq, Debug)]
pub enum Role {
    State,
    Discrete,
    Algebraic,
    Parameter,
}

/// What a name is at some offset of a model.
#[derive(Clone, Copy, Drop)]
pub enum NameKind {
    /// The variable of an enclosing loop.
    Loop,
    /// A declared name: its role, and whether it is an array.
    Declared(Role, bool),
    /// Not declared.
    Missing,
}

/// The requirement of a context on a name.
#[derive(Clone, Copy)]
pub enum NameRequirement {
    /// Any name with a value: a declared name or a loop variable.
    Value,
    /// A parameter or a loop variable.
    Constant,
    State,
    Discrete,
    Algebraic,
    /// A name with a start value: a state or a discrete variable.
    Started,
    /// No name is allowed.
    Nothing,
}

impl NameRequirement {
    // Returns whether the requirement allows a role.
    pub(crate) fn fits_name_kind(self, role: Role) -> bool
        ensures { result ≡ is_wanted self role }
    {
        match self {
            NameRequirement::Value => true,
            NameRequirement::Constant => match role {
                Role::Parameter => true,
                Role::State | Role::Discrete | Role::Algebraic => false,
            },
            NameRequirement::State => match role {
                Role::State => true,
                Role::Discrete | Role::Algebraic | Role::Parameter => false,
            },
            NameRequirement::Discrete => match role {
                Role::Discrete => true,
                Role::State | Role::Algebraic | Role::Parameter => false,
            },
            NameRequirement::Algebraic => match role {
                Role::Algebraic => true,
                Role::State | Role::Discrete | Role::Parameter => false,
            },
            NameRequirement::Started => match role {
                Role::State | Role::Discrete => true,
                Role::Algebraic | Role::Parameter => false,
            },
            NameRequirement::Nothing => false,
        }
    }

    // Returns whether the requirement allows a loop variable.
    pub(crate) fn allows_loop_name_kind(self) -> bool
        ensures { result ≡ wants_loops self }
    {
        match self {
            NameRequirement::Value | NameRequirement::Constant => true,
            NameRequirement::State | NameRequirement::Discrete | NameRequirement::Algebraic =>
                false,
            NameRequirement::Started | NameRequirement::Nothing => false,
        }
    }
}

/// The context of an expression.
#[derive(Clone, Copy)]
pub enum NameContext {
    Equation,
    Clause,
    /// A context that allows only constants.
    Constant,
}

impl NameContext {
    // Returns the requirement on a name in this context.
    pub(crate) fn wanted_name_kind(self) -> NameRequirement
        ensures { result ≡ wanted_in self }
    {
        match self {
            NameContext::Equation | NameContext::Clause => NameRequirement::Value,
            NameContext::Constant => NameRequirement::Constant,
        }
    }

    // Returns the requirement on a name under `pre` in this context.
    pub(crate) fn wanted_previous_name_kind(self) -> NameRequirement
        ensures { result ≡ wanted_before self }
    {
        match self {
            NameContext::Clause => NameRequirement::Discrete,
            NameContext::Equation | NameContext::Constant => NameRequirement::Nothing,
        }
    }
}
