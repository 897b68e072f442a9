ghost use Rattle.std.specs.Prelude.{◌≡◌, [], ◌∷◌, ◌++◌, slice_get, reverse, IfOk, OnOk, OnErr, IfSome, IfNone};
ghost use Rattle.std.specs.Option.{option_copied};
ghost use Rattle.isa_unify.specs.BinderLayers.{variables_of};

use isa_terms::{Name, Term, Typ};
use std::alloc::{AllocError, Global};
use std::marker::Model;
use std::rc::Rc;

/// A variable of a binder that was stripped.
#[derive(Drop)]
pub struct Variable {
    pub name: Name,
    pub typ: Typ,
}

impl Variable {
    pub fn copy(&self) -> Result<Variable, AllocError>
        ensures { IfOk result (λ v. v ≡ self.now) }
    {
        Ok(Variable {
            name: self.name.copy()?,
            typ: self.typ.copy()?,
        })
    }
}

/// One layer of binders: the innermost one, and those round it.
#[cycle(binders)]
#[derive(Drop)]
pub enum Layer {
    Outermost,
    Under(Variable, Binders),
}

/// The variables round a place, the innermost first, in a list that its copies share.
#[cycle(binders)]
#[derive(Drop)]
pub struct Binders {
    layer: Rc<Layer>,
}

impl Model for Binders {
    ghost use Rattle.std.specs.Prelude.{List, length};
    ghost use Rattle.std.specs.Coded.{coded_list};
    ghost use Rattle.isa_unify.specs.declared.equation.Variable.{Variable};
    ghost use Rattle.isa_unify.specs.VariableCodes.{variable_code};

    ghost Value = { List Variable };

    ghost coded = { coded_list variable_code };

    ghost use Rattle.isa_unify.specs.BinderLayers.{variables_of};

    ghost view = { λ a. variables_of a.layer.value };

    ghost size = { length };

    ghost use Rattle.isa_unify.specs.BinderFalls.{layers_fall};

    ghost size_decreases = { λ a h. layers_fall a.layer.value };
}

impl Binders {
    fn new(alloc: Global, layer: Layer) -> Result<Binders, AllocError>
        ensures { IfOk result (λ bs. bs ≡ variables_of layer) }
    {
        Ok(Binders {
            layer: Rc::new(alloc, layer)?,
        })
    }

    /// No variable.
    pub fn none(alloc: Global) -> Result<Binders, AllocError>
        ensures { IfOk result (λ bs. bs ≡ []) }
    {
        Binders::new(alloc, Layer::Outermost)
    }

    /// The innermost binder, and those round it.
    pub fn view(&self) -> &Layer
        ensures { variables_of result.now ≡ self.now }
    {
        self.layer.as_ref()
    }

    pub fn copy(&self) -> Result<Binders, AllocError>
        ensures { IfOk result (λ bs. bs ≡ self.now) }
    {
        Ok(Binders {
            layer: self.layer.clone()?,
        })
    }

    /// The variable with that number.
    pub fn get(&self, number: u32) -> Option<&Variable>
        ensures { option_copied result ≡ slice_get self.now number }
    {
        match self.view() {
            Layer::Outermost => None,
            Layer::Under(variable, outer) => {
                if number == 0 {
                    Some(variable)
                } else {
                    outer.get(number - 1)
                }
            }
        }
    }

    /// The variables under one more binder, which shares them.
    pub fn under(&self, alloc: Global, variable: Variable) -> Result<Binders, AllocError>
        ensures { IfOk result (λ bs. bs ≡ variable ∷ self.now) }
    {
        Binders::new(alloc, Layer::Under(variable, self.copy()?))
    }
}

/// Two normal terms under binders; the left one is the rule's.
#[derive(Drop)]
pub struct Equation {
    pub binders: Binders,
    pub left: Term,
    pub right: Term,
}

impl Equation {
    pub fn copy(&self) -> Result<Equation, AllocError>
        ensures { IfOk result (λ e. e ≡ self.now) }
    {
        Ok(Equation {
            binders: self.binders.copy()?,
            left: self.left.copy()?,
            right: self.right.copy()?,
        })
    }
}

/// A list of equations, the first of which is taken first.
#[derive(Drop)]
pub struct Equations {
    stack: Vec<Equation>,
}

impl Model for Equations {
    ghost use Rattle.std.specs.Prelude.{List, reverse};
    ghost use Rattle.std.specs.Coded.{coded_list};
    ghost use Rattle.isa_unify.specs.declared.equation.Equation.{Equation};
    ghost use Rattle.isa_unify.specs.EquationCodes.{equation_code};

    ghost Value = { List Equation };

    ghost coded = { coded_list equation_code };

    ghost view = { λ a. reverse a.stack.items };
}

impl Equations {
    pub fn new(alloc: Global) -> Equations
        ensures { result ≡ [] }
    {
        Equations {
            stack: Vec::new(alloc),
        }
    }

    pub fn copied(&self, alloc: Global) -> Result<Equations, AllocError>
        ensures { IfOk result (λ es. es ≡ self.now) }
    {
        let mut stack = Vec::new(alloc);
        for equation in &self.stack {
            stack.push(equation.copy()?)?;
        }
        Ok(Equations { stack })
    }

    /// Takes the first equation.
    pub fn take_first(&mut self) -> Option<Equation>
        ensures some { IfSome result (λ e. self.old ≡ e ∷ self.new) }
        ensures none { IfNone result (self.old ≡ []) }
    {
        self.stack.pop()
    }

    /// The equations from the last to the first.
    pub fn last_first(&self) -> &[Equation]
        ensures { reverse result.now ≡ self.now }
    {
        self.stack.as_slice()
    }

    /// The equations, given from the last to the first.
    pub fn of_last_first(stack: Vec<Equation>) -> Equations
        ensures { result ≡ reverse stack.items }
    {
        Equations { stack }
    }

    /// Puts the other equations in front, in their order.
    #[tactic(auto, using(crate::proofs::Lists::put_first_all))]
    pub fn put_all_first(&mut self, others: Equations) -> Result<(), AllocError>
        ensures { OnOk result (self.new ≡ others ++ self.old) }
    {
        let Equations { mut stack } = others;
        self.stack.append(&mut stack)?;
        Ok(())
    }

    pub fn put_first(&mut self, equation: Equation) -> Result<(), AllocError>
        ensures ok { OnOk result (self.new ≡ equation ∷ self.old) }
        ensures err { OnErr result (self.new ≡ self.old) }
    {
        self.stack.push(equation)?;
        Ok(())
    }
}
