use cl_ground::{Items, NoMemory};
use cl_value::{Template, Tuple, Value};
use std::alloc::Global;

// A copy of a template, and memory for the fields of its match, made ahead of the search.
#[derive(Drop)]
pub struct Place {
    asked: Template,
    fields: Items<Value>,
}

// A copy of a template, and of the tuple that was found for it.
#[derive(Drop)]
pub struct Answered {
    pub asked: Template,
    pub got: Option<Tuple>,
}

impl Place {
    ghost use Rattle.std.specs.Prelude.{◌≡◌, ◌<◌, ◌≤◌, [], length, option_map, IfOk, None, Some};
    ghost use Rattle.cl_ground.specs.Room.{Room};

    // `NoMemory` comes where the allocator refused the room.
    pub fn new(alloc: Global, template: &Template) -> Result<Place, NoMemory>
        ensures asked { IfOk result (λ p. p.asked.items ≡ template.now.items) }
        ensures empty { IfOk result (λ p. p.fields.items ≡ []) }
        ensures room { IfOk result (λ p. length template.now.items ≤ p.fields.spare) }
    {
        let asked = template.copy(alloc)?;
        let mut fields = Items::new(alloc);
        fields.reserve(template.len())?;
        Ok(Place { asked, fields })
    }

    // The template with the tuple. It takes no memory.
    pub fn hit(self, tuple: &Tuple) -> Answered
        requires empty { self.fields.items ≡ [] }
        requires room { length tuple.now.items ≤ self.fields.spare }
        ensures asked { result.asked.items ≡ self.asked.items }
        ensures got { option_map (λ t. t.items) result.got ≡ Some tuple.now.items }
    {
        let Place { asked, mut fields } = self;
        // that it is from 1 to 16, which the new tuple needs
        let _ = tuple.len();
        fields.push_all(tuple.fields());
        Answered {
            asked,
            got: Some(Tuple::new(fields)),
        }
    }

    // The template without a tuple.
    pub fn miss(self) -> Answered
        ensures asked { result.asked.items ≡ self.asked.items }
        ensures got { result.got ≡ None }
    {
        let Place { asked, fields: _ } = self;
        Answered { asked, got: None }
    }
}
