mod classes;
mod three;
mod walks;
