//! What expressions and statements do to what frames share.
ghost use Rattle.std.specs.Prelude.{◌≡◌, ◌≤◌, ◌<◌, map, replicate, length, slice_get, unwrap_or, IfOk, OnOk};
ghost use Rattle.std.specs.Option.{option_copied};
ghost use Rattle.px_value.specs.declared.value.Value.TheVariants.{Null};
ghost use Rattle.px_mean.specs.Run.{turn as mean_turn, max_turns};
ghost use Rattle.px_mean.specs.Facts.{default_of as mean_default_of, element_default as mean_element_default, element_number as mean_element_number};
ghost use Rattle.px_effects.specs.Cells as cells;
ghost use Rattle.px_mean.specs.Effects as effects;
ghost use Rattle.px_plain.specs.Effects as parts;
ghost use Rattle.px_plain.specs.View.{shared_of, Ends, Keeps, IfKept};

use crate::facts::{default_of, element_default};
use crate::machine::Machine;
use crate::prints::text_of;
use crate::stop::Stop;
use px_facts::{Element, Ty};
use px_value::{AddError, Kind, MAX_ELEMENTS, MAX_TURNS, Thrown, Value, Values};
use sqlite_items::at;
use std::alloc::{AllocError, Global};

/// The object of a reference.
pub fn reference(value: &Value) -> Result<u32, Thrown>
    ensures { result ≡ cells.reference value.now }
{
    match value {
        Value::Ref(object) => Ok(*object),
        _ => Err(Thrown::NullPointerException),
    }
}

// The place of an index among so many elements.
fn place_of(index: &Value, size: usize) -> Result<u32, Thrown>
    ensures { result ≡ cells.place_of index.now size }
{
    match index {
        Value::Int(index) => place_in(*index, size),
        _ => Err(Thrown::ArrayIndexOutOfBoundsException),
    }
}

fn place_in(index: i32, size: usize) -> Result<u32, Thrown>
    ensures { result ≡ cells.place_of (Value.Int index) size }
{
    if index < 0 {
        return Err(Thrown::ArrayIndexOutOfBoundsException);
    }
    let place = index.cast_unsigned();
    if (place as usize) < size {
        Ok(place)
    } else {
        Err(Thrown::ArrayIndexOutOfBoundsException)
    }
}

// How many elements an array is to have.
fn array_size(size: &Value) -> Result<usize, Thrown>
    ensures { result ≡ cells.array_size size.now }
{
    match size {
        Value::Int(size) => int_size(*size),
        _ => Ok(0),
    }
}

fn int_size(size: i32) -> Result<usize, Thrown>
    ensures { result ≡ cells.array_size (Value.Int size) }
{
    if size < 0 {
        Err(Thrown::NegativeArraySizeException)
    } else {
        Ok(size.cast_unsigned() as usize)
    }
}

// No checked program has so many classes that their numbers end.
fn element_number(element: Element) -> Result<u16, AllocError>
    ensures { IfOk result (λ n. n ≡ mean_element_number element) }
{
    match element {
        Element::Int => Ok(0),
        Element::Long => Ok(1),
        Element::Boolean => Ok(2),
        Element::Text => Ok(3),
        Element::Object(class) => class_number(class),
    }
}

fn class_number(class: usize) -> Result<u16, AllocError>
    ensures { IfOk result (λ n. n ≡ mean_element_number (Element.Object class)) }
{
    if class > 65531 {
        return Err(AllocError);
    }
    Ok(4 + class as u16)
}

/// The default of each type.
pub fn defaults(alloc: Global, types: &[Ty]) -> Result<Values, AllocError>
    ensures { IfOk result (λ vs. vs ≡ map mean_default_of types.now) }
{
    let mut values = Values::new(alloc);
    for ty in types {
        values.push(default_of(*ty))?;
    }
    Ok(values)
}

fn elements(alloc: Global, count: usize, element: Element) -> Result<Values, AllocError>
    ensures { IfOk result (λ vs. vs ≡ replicate count (mean_element_default element)) }
{
    let mut values = Values::new(alloc);
    for _ in 0..count {
        values.push(element_default(element))?;
    }
    Ok(values)
}

// A copy, or null where there is no value.
pub fn copied(alloc: Global, value: Option<&Value>) -> Result<Value, AllocError>
    ensures { IfOk result (λ v. v ≡ unwrap_or (option_copied value.entry) Null) }
{
    match value {
        Some(value) => value.copy(alloc),
        None => Ok(Value::Null),
    }
}

/// A number as an int.
pub fn size_value(size: usize) -> Value
    ensures { result ≡ cells.size_value size }
{
    Value::Int(((size % (1 << 32)) as u32).cast_signed())
}

impl Machine {
    pub fn turn(&mut self) -> Result<(), Stop>
        ensures ends { Ends (shared_of self.new) result (mean_turn (shared_of self.old)) }
        ensures kept { Keeps self.old self.new }
        ensures turns { self.old.turns ≤ self.new.turns }
        ensures more { OnOk result (self.old.turns < self.new.turns) }
        ensures most { OnOk result (self.new.turns ≤ max_turns) }
    {
        if self.turns < MAX_TURNS {
            self.turns += 1;
            Ok(())
        } else {
            Err(Stop::Threw(Thrown::TurnsOut))
        }
    }

    pub fn read_cell(&self, alloc: Global, object: u32, index: u32) -> Result<Value, Stop>
        ensures { Ends (shared_of self.now) result (parts.read_cell object index (shared_of self.now)) }
    {
        Ok(copied(alloc, self.store.heap.get(object, index))?)
    }

    pub fn write_cell(&mut self, object: u32, index: u32, value: Value) -> Result<(), Stop>
        ensures ends { Ends (shared_of self.new) result (parts.write_cell object index value (shared_of self.old)) }
        ensures kept { IfKept result (Keeps self.old self.new) }
        ensures turns { self.new.turns ≡ self.old.turns }
    {
        self.store.write(object, index, value)?;
        Ok(())
    }

    // How many cells an object has.
    fn size_of(&self, object: u32) -> usize
        ensures { result ≡ parts.size_at self.now.store.heap object }
    {
        match at(self.store.heap.as_slice(), object as usize) {
            Some(object) => object.cells.len(),
            None => 0,
        }
    }

    fn element_of(&self, object: u32, index: &Value) -> Result<u32, Stop>
        ensures { Ends (shared_of self.now) result (parts.element_of object index.now (shared_of self.now)) }
    {
        Ok(place_of(index, self.size_of(object))?)
    }

    pub fn get_field(&self, alloc: Global, of: &Value, place: u16) -> Result<Value, Stop>
        ensures { Ends (shared_of self.now) result (effects.get_field of.now place (shared_of self.now)) }
    {
        let object = reference(of)?;
        self.read_cell(alloc, object, u32::from(place))
    }

    pub fn put_field(&mut self, of: &Value, place: u16, value: Value) -> Result<(), Stop>
        ensures ends { Ends (shared_of self.new) result (effects.put_field of.now place value (shared_of self.old)) }
        ensures kept { IfKept result (Keeps self.old self.new) }
        ensures turns { self.new.turns ≡ self.old.turns }
    {
        let object = reference(of)?;
        self.write_cell(object, u32::from(place), value)
    }

    pub fn array_length(&self, of: &Value) -> Result<Value, Stop>
        ensures { Ends (shared_of self.now) result (effects.array_length of.now (shared_of self.now)) }
    {
        let object = reference(of)?;
        Ok(size_value(self.size_of(object)))
    }

    pub fn load(&self, alloc: Global, of: &Value, index: &Value) -> Result<Value, Stop>
        ensures { Ends (shared_of self.now) result (effects.load of.now index.now (shared_of self.now)) }
    {
        let object = reference(of)?;
        let place = self.element_of(object, index)?;
        self.read_cell(alloc, object, place)
    }

    pub fn store_element(&mut self, of: &Value, index: &Value, value: Value) -> Result<(), Stop>
        ensures ends { Ends (shared_of self.new) result (effects.store of.now index.now value (shared_of self.old)) }
        ensures kept { IfKept result (Keeps self.old self.new) }
        ensures turns { self.new.turns ≡ self.old.turns }
    {
        let object = reference(of)?;
        let place = self.element_of(object, index)?;
        self.write_cell(object, place, value)
    }

    pub fn allocate(&mut self, kind: Kind, site: u16, cells: Values) -> Result<Value, Stop>
        ensures ends { Ends (shared_of self.new) result (parts.allocate kind site cells (shared_of self.old)) }
        ensures kept { Keeps self.old self.new }
        ensures turns { self.new.turns ≡ self.old.turns }
    {
        match self.store.add(kind, site, cells) {
            Ok(place) => Ok(Value::Ref(place)),
            Err(AddError::HeapFull) => Err(Stop::Threw(Thrown::HeapFull)),
            Err(AddError::NoMemory) => Err(Stop::NoMemory),
        }
    }

    pub fn new_object(
        &mut self,
        alloc: Global,
        class: u16,
        site: u16,
        fields: &[Ty],
    ) -> Result<Value, Stop>
        ensures ends { Ends (shared_of self.new) result (effects.new_object class site fields.now (shared_of self.old)) }
        ensures kept { IfKept result (Keeps self.old self.new) }
        ensures turns { self.new.turns ≡ self.old.turns }
    {
        let cells = defaults(alloc, fields)?;
        self.allocate(Kind::Object(class), site, cells)
    }

    fn new_elements(
        &mut self,
        alloc: Global,
        site: u16,
        element: Element,
        size: &Value,
    ) -> Result<Value, Stop>
        ensures ends { Ends (shared_of self.new) result (effects.new_array site (Ty.Array element) size.now (shared_of self.old)) }
        ensures kept { IfKept result (Keeps self.old self.new) }
        ensures turns { self.new.turns ≡ self.old.turns }
    {
        let count = array_size(size)?;
        if count > MAX_ELEMENTS as usize {
            return Err(Stop::Threw(Thrown::HeapFull));
        }
        let number = element_number(element)?;
        let cells = elements(alloc, count, element)?;
        self.allocate(Kind::Array(number), site, cells)
    }

    pub fn new_array(
        &mut self,
        alloc: Global,
        site: u16,
        ty: Ty,
        size: &Value,
    ) -> Result<Value, Stop>
        ensures ends { Ends (shared_of self.new) result (effects.new_array site ty size.now (shared_of self.old)) }
        ensures kept { IfKept result (Keeps self.old self.new) }
        ensures turns { self.new.turns ≡ self.old.turns }
    {
        match ty {
            Ty::Array(element) => self.new_elements(alloc, site, element, size),
            _ => Ok(Value::Null),
        }
    }

    pub fn print_line(&mut self, alloc: Global, value: &Value) -> Result<(), Stop>
        ensures ends { Ends (shared_of self.new) result (effects.print_line value.now (shared_of self.old)) }
        ensures kept { IfKept result (Keeps self.old self.new) }
        ensures turns { self.new.turns ≡ self.old.turns }
    {
        let text = text_of(alloc, value)?;
        if self.prints.has_room(text.len()) {
            self.prints.push(text)?;
            Ok(())
        } else {
            Err(Stop::Threw(Thrown::PrintsOut))
        }
    }
}
