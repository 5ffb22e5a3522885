mod expression;
mod form;
mod item;
mod site;
mod statement;
mod type_of;

pub use form::FieldForm;
pub use item::sites;
pub use site::Site;
