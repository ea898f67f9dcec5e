mod holds;
mod small;
mod texts;
mod unit_models;
mod version_1;
mod version_2;
