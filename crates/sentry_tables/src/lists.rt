//! Lists and maps of members, as JSON arrays and objects.

ghost use Rattle.sentry_tables.specs.Kind.{list as list_kind, map as map_kind};
ghost use Rattle.sentry_tables.specs.Cells.{list_cell, map_cell};

use crate::member::Member;
use crate::way::Way;
use sentry_json::Writer;
use serde_json::{Map, Value, put};
use std::alloc::{AllocError, Global};
use std::default::Emptied;

impl<T: Member> Member for Vec<T> {
    ghost kind = { list_kind T.kind };

    ghost cell_of = { λ v. list_cell T.cell_of v.items };

    fn to_tree(&self, alloc: Global) -> Result<Value, AllocError> {
        let mut items = Vec::with_capacity(alloc, self.len())?;
        for item in self {
            items.push(item.to_tree(alloc)?)?;
        }
        Ok(Value::Array(items))
    }

    fn write(&self, out: &mut Writer) -> Result<(), AllocError> {
        out.begin_array()?;
        for item in self {
            item.write(out)?;
        }
        out.end_array()
    }

    fn remake(&self, way: Way) -> Result<Vec<T>, AllocError> {
        let mut list = Vec::with_capacity(*self.allocator(), self.len())?;
        for item in self {
            list.push(item.remake(way)?)?;
        }
        Ok(list)
    }

    fn is_null_tree(&self) -> bool {
        false
    }

    fn is_plain(&self) -> bool {
        for item in self {
            if !item.is_plain() {
                return false;
            }
        }
        true
    }
}

impl<T: Member> Member for Map<String, T> {
    ghost kind = { map_kind T.kind };

    ghost cell_of = { λ m. map_cell T.cell_of m.entries };

    fn to_tree(&self, alloc: Global) -> Result<Value, AllocError> {
        let mut members = Map::new(alloc);
        for (key, value) in self.iter() {
            put(&mut members, alloc, key.as_str(), value.to_tree(alloc)?)?;
        }
        Ok(Value::Object(members))
    }

    fn write(&self, out: &mut Writer) -> Result<(), AllocError> {
        out.begin_object()?;
        for (key, value) in self.iter() {
            out.key(key.as_str())?;
            value.write(out)?;
        }
        out.end_object()
    }

    fn remake(&self, way: Way) -> Result<Map<String, T>, AllocError> {
        let mut map = Map::emptied(self)?;
        for (key, value) in self.iter() {
            let name = key.clone()?;
            drop(map.insert(name, value.remake(way)?)?);
        }
        Ok(map)
    }

    fn is_null_tree(&self) -> bool {
        false
    }

    fn is_plain(&self) -> bool {
        for (key, value) in self.iter() {
            let _name = key.as_str();
            if !value.is_plain() {
                return false;
            }
        }
        true
    }
}
