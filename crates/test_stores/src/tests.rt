mod outside;
mod stores;
mod values;
